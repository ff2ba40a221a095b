//! A cell: the eight bytes of an instruction, split into fields.

/// An opcode and its operands. `w` takes four bytes, the most significant first.
#[derive(Clone, Copy, Debug, PartialEq, Eq)]
pub struct Cell {
    pub opcode: u8,
    pub x: u8,
    pub y: u8,
    pub z: u8,
    pub w: u32,
}

impl Cell {
    ghost use Rattle.std.specs.Prelude.{◌≡◌, length};
    ghost use Rattle.tl_instr.specs.Spelling.{cell, cell_bytes};

    /// How many bytes a cell has.
    pub const SIZE: usize = 8;

    pub fn new(opcode: u8, x: u8, y: u8, z: u8, w: u32) -> Cell
        ensures { result ≡ cell opcode x y z w }
    {
        Cell { opcode, x, y, z, w }
    }

    pub fn from_bytes(bytes: &[u8]) -> Cell
        requires { length bytes.now ≡ 8 }
        ensures { cell_bytes result ≡ bytes.now }
    {
        Cell {
            opcode: bytes[0],
            x: bytes[1],
            y: bytes[2],
            z: bytes[3],
            w: u32::from_be_bytes([bytes[4], bytes[5], bytes[6], bytes[7]]),
        }
    }

    pub fn to_bytes(self) -> [u8; 8]
        ensures { result ≡ cell_bytes self }
    {
        let [high, low, lower, lowest] = self.w.to_be_bytes();
        [
            self.opcode,
            self.x,
            self.y,
            self.z,
            high,
            low,
            lower,
            lowest,
        ]
    }
}
