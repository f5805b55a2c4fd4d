// Whether a text is well-formed XML, of the few forms that a picture has: elements with attributes in double quotes, and character data.
use frang_base::NoMemory;
use std::alloc::Global;

// Where a scan is.
#[derive(Clone, Copy, PartialEq, Eq)]
enum At {
    // In character data.
    Data,
    // Behind `&`, in character data or an attribute.
    Entity,
    // Behind `<`, in the name of an element.
    Name,
    // In the name of an element that ends.
    EndName,
    // Among attributes.
    Inside,
    // In an attribute's value.
    Value,
    // Behind the `/` of an element without contents.
    Slash,
    // No XML.
    Wrong,
}

// A scan: the names of the elements that are open, the name or entity that is read, and where it is.
#[derive(Drop)]
struct Scan {
    open: Vec<Vec<u8>>,
    word: Vec<u8>,
    at: At,
    // Whether the entity that is read stands in an attribute.
    in_value: bool,
}

fn is_name(byte: u8) -> bool {
    byte.is_ascii_alphanumeric()
}

fn is_entity(word: &[u8]) -> bool {
    word == b"amp".as_slice()
        || word == b"lt".as_slice()
        || word == b"gt".as_slice()
        || word == b"quot".as_slice()
}

impl Scan {
    // A word ends, which an element opens.
    fn opened(&mut self, alloc: Global) -> Result<(), NoMemory> {
        let name = std::mem::replace(&mut self.word, Vec::new(alloc));
        self.open.push(name)?;
        Ok(())
    }

    // An element ends by the word that was read.
    fn closed(&mut self, alloc: Global) -> At {
        let word = std::mem::replace(&mut self.word, Vec::new(alloc));
        match self.open.pop() {
            Some(name) if name.as_slice() == word.as_slice() => At::Data,
            _ => At::Wrong,
        }
    }

    // Behind one byte more.
    fn step(&mut self, alloc: Global, byte: u8) -> Result<At, NoMemory> {
        Ok(match (self.at, byte) {
            (At::Data, b'<') => At::Name,
            (At::Data, b'&') => {
                self.in_value = false;
                At::Entity
            }
            (At::Data, b'>') => At::Wrong,
            (At::Data, _) => At::Data,
            (At::Value, b'"') => At::Inside,
            (At::Value, b'<') => At::Wrong,
            (At::Value, b'&') => {
                self.in_value = true;
                At::Entity
            }
            (At::Value, _) => At::Value,
            (At::Entity, b';') => {
                let known = is_entity(&self.word);
                self.word = Vec::new(alloc);
                match (known, self.in_value) {
                    (true, true) => At::Value,
                    (true, false) => At::Data,
                    (false, _) => At::Wrong,
                }
            }
            (At::Name, b'/') if self.word.is_empty() => At::EndName,
            (At::Name, b' ') => {
                self.opened(alloc)?;
                At::Inside
            }
            (At::Name, b'>') => {
                self.opened(alloc)?;
                At::Data
            }
            (At::EndName, b'>') => self.closed(alloc),
            (At::Entity | At::Name | At::EndName, _) if is_name(byte) => {
                self.word.push(byte)?;
                self.at
            }
            (At::Inside, b'"') => At::Value,
            (At::Inside, b'/') => At::Slash,
            (At::Inside, b'>') => At::Data,
            (At::Inside, b'<') => At::Wrong,
            (At::Inside, _) => At::Inside,
            (At::Slash, b'>') => {
                let _name = self.open.pop();
                At::Data
            }
            _ => At::Wrong,
        })
    }
}

/// Whether a text is UTF-8 and well-formed: each element ends, and nothing that XML reserves stands for itself.
pub fn is_well_formed(alloc: Global, text: &[u8]) -> Result<bool, NoMemory> {
    let mut scan = Scan {
        open: Vec::new(alloc),
        word: Vec::new(alloc),
        at: At::Data,
        in_value: false,
    };
    for byte in text {
        scan.at = scan.step(alloc, *byte)?;
    }
    let whole = scan.at == At::Data && scan.open.is_empty();
    Ok(whole && str::from_utf8(text).is_ok())
}
