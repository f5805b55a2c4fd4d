// Bytes at places.
use crate::rows::split;
use crate::words::number;
use frang_base::limits::SECTOR_BYTES;
use frang_base::{Block, NoMemory, Patch, Patches};

/// Puts bytes in place of those that stand there. Pieces are parted by blanks: `8:0a0b` has two bytes from place 8 on by their hexadecimal
/// digits, and text stands behind a quote, as in `128:'ab` and `8:0102'ab`. What is no piece, or goes past the end, is refused.
pub fn lay(bytes: &mut [u8], pieces: &str) -> Result<(), NoMemory> {
    for piece in pieces.split_whitespace() {
        lay_piece(bytes, piece)?;
    }
    Ok(())
}

fn lay_piece(bytes: &mut [u8], piece: &str) -> Result<(), NoMemory> {
    let (place, new) = split(piece, ":");
    match place.parse::<usize>() {
        Ok(place) => lay_at(bytes, place, new),
        Err(_) => Err(NoMemory),
    }
}

fn lay_at(bytes: &mut [u8], place: usize, new: &str) -> Result<(), NoMemory> {
    let (digits, text) = split(new, "'");
    let middle = place.saturating_add(digits.len() / 2);
    let end = middle.saturating_add(text.len());
    lay_digits(bytes.get_mut(place..middle), digits)?;
    lay_text(bytes.get_mut(middle..end), text)
}

fn lay_digits(there: Option<&mut [u8]>, digits: &str) -> Result<(), NoMemory> {
    let Some(there) = there else {
        return Err(NoMemory);
    };
    match hex::decode_to_slice(digits, there) {
        Ok(()) => Ok(()),
        Err(_) => Err(NoMemory),
    }
}

fn lay_text(there: Option<&mut [u8]>, text: &str) -> Result<(), NoMemory> {
    let Some(there) = there else {
        return Err(NoMemory);
    };
    for (old, new) in there.iter_mut().zip(text.as_bytes()) {
        *old = *new;
    }
    Ok(())
}

/// A block of one byte but for these pieces. What is no piece is refused.
pub fn block_of(byte: u8, pieces: &str) -> Result<Block, NoMemory> {
    let mut block = [byte; SECTOR_BYTES];
    lay(&mut block, pieces)?;
    Ok(block)
}

/// Whether the patches are these pieces, in their order.
pub fn are_pieces(patches: &Patches, pieces: &str) -> bool {
    let mut words = pieces.split_whitespace();
    for patch in patches.as_slice() {
        match words.next() {
            Some(piece) if is_piece(patch, piece) => {}
            _ => return false,
        }
    }
    words.next().is_none()
}

fn is_piece(patch: &Patch, piece: &str) -> bool {
    let (place, new) = split(piece, ":");
    let (digits, text) = split(new, "'");
    let bytes = patch.bytes.as_slice();
    match bytes.split_at_checked(digits.len() / 2) {
        Some((front, back)) => {
            number(place) == Some(u64::from(patch.at))
                && has_digits(front, digits)
                && back == text.as_bytes()
        }
        None => false,
    }
}

fn has_digits(bytes: &[u8], digits: &str) -> bool {
    let mut room = [0; 2 * SECTOR_BYTES];
    match room.get_mut(..digits.len()) {
        Some(there) => hex::encode_to_slice(bytes, there).is_ok() && *there == *digits.as_bytes(),
        None => false,
    }
}
