// The data's bytes, read from the front, and how a call's output is held to them.
#![tactic(auto)]

ghost use Rattle.std.specs.Prelude.{◌≤◌, length};

// What each byte that a call may write is before the call.
const LENT: u8 = 0xa5;

pub const LENT_ADDRESS: [u8; 16] = [LENT; 16];

// What is left of the data. Past its end stands 0, so that no record, however damaged, is read out of bounds: the
// methods answer no `Option`, since a record that is cut short agrees or differs by these zeros.
#[derive(Clone, Copy)]
pub struct Reader<'a> {
    left: &'a [u8],
}

impl<'a> Reader<'a> {
    pub fn new(data: &'a [u8]) -> Self {
        Self { left: data }
    }

    // How many bytes are left.
    pub fn len(&self) -> usize {
        self.left.len()
    }

    // All that is left.
    pub fn rest(&self) -> &'a [u8] {
        self.left
    }

    // The next `n` bytes, or as many as are left.
    pub fn take(&mut self, n: usize) -> &'a [u8]
        ensures { length result.now ≤ n }
    {
        let (next, left) = self.left.split_at(n.min(self.left.len()));
        self.left = left;
        next
    }

    pub fn bytes<const N: usize>(&mut self) -> [u8; N] {
        let next = self.take(N);
        let mut bytes = [0; N];
        bytes[..next.len()].copy_from_slice(next);
        bytes
    }

    pub fn byte(&mut self) -> u8 {
        u8::from_be_bytes(self.bytes())
    }

    pub fn word(&mut self) -> u16 {
        u16::from_be_bytes(self.bytes())
    }

    pub fn teid(&mut self) -> u32 {
        u32::from_be_bytes(self.bytes())
    }

    pub fn number(&mut self) -> u64 {
        u64::from_be_bytes(self.bytes())
    }

    // A flag: 1 where it is set, else 0. The data has no other.
    pub fn flag(&mut self) -> Option<bool> {
        match self.byte() {
            0 => Some(false),
            1 => Some(true),
            _ => None,
        }
    }

    pub fn numbers<const N: usize>(&mut self) -> [u64; N] {
        std::array::from_fn(|_| self.number())
    }
}

// Whether a call answers rightly and leaves its output as the data has it. As much of it is lent as the data has.
pub fn writes<F: FnOnce(&mut [u8]) -> bool>(due: &[u8], call: F) -> bool
    requires { F.IsAlwaysCallable call }
{
    // Longer than any output in the data.
    let mut out = [LENT; 4096];
    let room = due.len().min(out.len());
    let agrees = call(&mut out[..room]);
    agrees && out.get(..due.len()) == Some(due)
}
