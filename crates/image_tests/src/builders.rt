// Images by their bytes, and what calls of the program on them tell.
ghost use Rattle.quiet_outside.specs.KeptLines.{NoneTold};

use frang_base::NoMemory;
use frang_outside::{Act, FileFault, Files, MemFiles, MemOutside, NoGate, Outside};
use frang_top::{Status, frang};
use std::alloc::{AllocError, Global};
use std::sync::Wait;
use std::thread::Threads;
use test_tables::lay;

/// The status of a call by its code, its line and its place.
pub type Ending = (u8, u32, u64);

/// All was done.
pub const DONE: Ending = (0, 0, 0);

/// Words in a line, the status of a call with them, and what it says.
pub type Row = (&'static str, Ending, &'static str);

/// How a call ended, and the lines that it said.
#[derive(Drop)]
pub struct Told {
    pub status: Status,
    pub text: Vec<u8>,
}

/// Files of which nothing is told: each has these bytes, or too many where there are none, and none can be written.
#[derive(Drop)]
pub struct FixedFiles {
    pub image: Option<Vec<u8>>,
    pub write_faults: u64,
}

impl Files for FixedFiles {
    ghost use Rattle.std.specs.Prelude.{None};

    ghost state = { λ f. record { holds = None; read_faults = 0; write_faults = f.write_faults } };

    fn read(&mut self, alloc: Global, _name: &str, limit: u64) -> Result<Vec<u8>, FileFault> {
        match &self.image {
            Some(image) => {
                if image.len() as u64 > limit {
                    return Err(FileFault::TooLong);
                }
                Ok(image.as_slice().to_vec(alloc)?)
            }
            None => Err(FileFault::TooLong),
        }
    }

    fn write(&mut self, _name: &str, _bytes: &[u8]) -> Result<(), FileFault> {
        self.write_faults = self.write_faults.saturating_add(1);
        Err(FileFault::Failed)
    }
}

/// Zeros of this length, but for these pieces, the later ones laid over the others. What is no piece is refused.
pub fn image_of(alloc: Global, len: usize, pieces: &str, later: &str) -> Result<Vec<u8>, NoMemory> {
    let mut image = vec![in alloc; 0; len]?;
    lay(&mut image, pieces)?;
    lay(&mut image, later)?;
    Ok(image)
}

/// The file `img`, which holds this image, and no other.
pub fn files_of(alloc: Global, image: &[u8]) -> Result<MemFiles, NoMemory> {
    let mut files = MemFiles::new(alloc);
    files.put_file("img", image)?;
    Ok(files)
}

/// The lines said, one after another.
pub fn lines_said(alloc: Global, acts: &[Act]) -> Result<Vec<u8>, NoMemory> {
    let mut text = Vec::new(alloc);
    for act in acts {
        if let Act::Said(line) = act {
            text.extend_from_slice(line.as_slice())?;
        }
    }
    Ok(text)
}

/// The words of a line, parted by spaces.
pub fn words_of(alloc: Global, line: &str) -> Result<Vec<String>, AllocError> {
    let mut words = Vec::new(alloc);
    for word in line.split(' ') {
        words.push(String::from_str(alloc, word)?)?;
    }
    Ok(words)
}

/// How a call with these words ends, and the outside that it leaves. Nothing was said there before.
pub fn call<R: Threads + Wait + Sync, F: Files, O: Outside + Send>(
    rt: &R,
    alloc: Global,
    words: &[String],
    files: &mut F,
    out: O,
) -> (Status, O)
    requires { NoneTold (O.state out).acts }
{
    frang(rt, alloc, words, files, out, &NoGate)
}

/// What a call with these words tells over these files.
pub fn tell_over<R: Threads + Wait + Sync, F: Files>(
    rt: &R,
    alloc: Global,
    line: &str,
    files: &mut F,
) -> Result<Told, NoMemory> {
    let words = words_of(alloc, line)?;
    tell_words(rt, alloc, &words, files)
}

fn tell_words<R: Threads + Wait + Sync, F: Files>(
    rt: &R,
    alloc: Global,
    words: &[String],
    files: &mut F,
) -> Result<Told, NoMemory> {
    let (status, out) = call(rt, alloc, words, files, MemOutside::new(alloc));
    told_by(alloc, status, out.acts())
}

/// What a call that ended so, with these acts, tells.
pub fn told_by(alloc: Global, status: Status, acts: &[Act]) -> Result<Told, NoMemory> {
    let text = lines_said(alloc, acts)?;
    Ok(Told { status, text })
}

/// Whether a call ended so and said this.
pub fn is_so(told: &Told, ending: Ending, text: &str) -> bool {
    let (code, line, at) = ending;
    told.status.code == code
        && told.status.line == line
        && told.status.at == at
        && told.status.sector == 0
        && told.text.as_slice() == text.as_bytes()
}

fn is_row<R: Threads + Wait + Sync, F: Files>(
    rt: &R,
    alloc: Global,
    files: &mut F,
    row: &Row,
) -> Result<bool, NoMemory> {
    let told = tell_over(rt, alloc, row.0, files)?;
    Ok(is_so(&told, row.1, row.2))
}

/// The first row, from 1 on, whose call over these files tells otherwise; 0 where there is none.
pub fn first_other<R: Threads + Wait + Sync, F: Files>(
    rt: &R,
    alloc: Global,
    files: &mut F,
    rows: &[Row],
) -> Result<usize, NoMemory> {
    for (i, row) in rows.iter().enumerate() {
        if !is_row(rt, alloc, files, row)? {
            return Ok(i.saturating_add(1));
        }
    }
    Ok(0)
}
