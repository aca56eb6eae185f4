// The records of the data, from its front.
ghost use Rattle.std.specs.Prelude.{◌<◌, length, IfSome};
ghost use Rattle.std.specs.Iterator.{at_most};

use replay_data::Reader;

// A record begins with its kind, the length of what follows the first 4 bytes (2 bytes), and the number that the Rust
// refuses by, or 0.
#[derive(Clone, Copy)]
pub struct Record<'a> {
    // Where it begins in the data.
    pub at: usize,
    pub kind: u8,
    pub number: u8,
    pub data: Reader<'a>,
}

// Where the last record begins, of which a part is missing.
#[derive(Clone, Copy)]
pub struct Cut {
    pub at: usize,
}

// The records that are left of data of this length.
#[derive(Clone, Copy)]
pub struct Records<'a> {
    length: usize,
    left: &'a [u8],
}

impl<'a> Records<'a> {
    pub fn new(data: &'a [u8]) -> Self {
        Self {
            length: data.len(),
            left: data,
        }
    }
}

// A record, and the data behind it.
fn split_record(at: usize, bytes: &[u8]) -> Option<(Record<'_>, &[u8])>
    ensures { IfSome result (λ split. length split.1.now < length bytes.now) }
{
    let (header, rest) = bytes.split_first_chunk::<4>()?;
    let [kind, high, low, number] = *header;
    let length = u16::from_be_bytes([high, low]);
    let (data, rest) = rest.split_at_checked(usize::from(length))?;
    let record = Record {
        at,
        kind,
        number,
        data: Reader::new(data),
    };
    Some((record, rest))
}

impl<'a> Iterator for Records<'a> {
    type Item = Result<Record<'a>, Cut>;

    ghost remaining = { λ records. at_most (length records.left.now) };

    fn next(&mut self) -> Option<Result<Record<'a>, Cut>> {
        if self.left.is_empty() {
            return None;
        }
        let at = self.length.saturating_sub(self.left.len());
        match split_record(at, self.left) {
            Some((record, left)) => {
                self.left = left;
                Some(Ok(record))
            }
            None => {
                self.left = &[];
                Some(Err(Cut { at }))
            }
        }
    }
}
