// The line that is being read.
ghost use Rattle.std.specs.Prelude.{◌≤◌};
ghost use Rattle.sheet.specs.declared.line.TheConstants.{ROOM};

// The longest line that is answered, without its end.
pub(crate) const LONGEST: usize = 8192;

// That, a CR, and a byte that a longer line fills.
pub(crate) const ROOM: usize = 8194;

// Its first bytes, as far as there is room for them: an array and how many it holds, since a Vec may find no memory.
#[derive(Drop)]
pub(crate) struct Line {
    bytes: [u8; ROOM],
    held: usize,
    ghost fits: { held ≤ ROOM },
}

impl Line {
    pub(crate) fn empty() -> Self {
        Line {
            bytes: [0; ROOM],
            held: 0,
        }
    }

    pub(crate) fn clear(&mut self) {
        self.held = 0;
    }

    pub(crate) fn text(&self) -> &[u8] {
        &self.bytes[..self.held]
    }

    // Puts bytes behind the ones that are held.
    pub(crate) fn hold(&mut self, bytes: &[u8]) {
        let room = &mut self.bytes[self.held..];
        let n = bytes.len().min(room.len());
        room[..n].copy_from_slice(&bytes[..n]);
        self.held += n;
    }

    // Drops a CR at the end.
    pub(crate) fn drop_cr(&mut self) {
        if self.held > 0 && self.bytes[self.held - 1] == b'\r' {
            self.held -= 1;
        }
    }
}
