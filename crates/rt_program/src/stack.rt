//! The stack of a run, by what its source says of how deep it goes.

/// The least stack of a run.
const LEAST: u64 = 8 << 20;

/// The bytes of stack for each level of each height: twice what a level takes in the dearest of the
/// functions that go down as deep as the document, or more.
const LEVEL: u64 = 16_384;

/// How deep arrays and objects of a source may nest.
const DEEPEST: u64 = 127;

/// The word of a log that tells of a scope, a place in it for each byte behind the first one.
const ENTRY: usize = 4;

/// What the bytes of a source say of how deep its run goes.
#[derive(Clone, Copy)]
pub struct Depths {
    /// How deep arrays and objects nest. A level of a tree takes two of them.
    pub nested: u64,
    /// At least as many as the scopes that a log tells of.
    pub made: u64,
}

/// Where a look through a source stands, byte by byte.
#[derive(Clone, Copy)]
struct Look {
    /// How many arrays and objects are open.
    open: u64,
    in_text: bool,
    is_escaped: bool,
    /// How much of the word of an entry came last.
    of_word: usize,
    found: Depths,
}

impl Look {
    fn new() -> Look {
        Look {
            open: 0,
            in_text: false,
            is_escaped: false,
            of_word: 0,
            found: Depths { nested: 0, made: 0 },
        }
    }

    /// Counts one more scope.
    fn count(&mut self) {
        self.found.made = self.found.made.saturating_add(1);
    }

    /// Counts the entries `made:`. Each escape counts as one, since it may stand in one.
    fn look_for_entry(&mut self, byte: u8) {
        if byte == b'\\' || self.of_word == ENTRY && byte == b':' {
            self.count();
        }
        self.of_word = match (self.of_word, byte) {
            (_, b'm') => 1,
            (1, b'a') => 2,
            (2, b'd') => 3,
            (3, b'e') => ENTRY,
            _ => 0,
        };
    }

    /// Takes a byte of a text, which may be the last one.
    fn take_in_text(&mut self, byte: u8) {
        if self.is_escaped {
            self.is_escaped = false;
        } else if byte == b'\\' {
            self.is_escaped = true;
        } else if byte == b'"' {
            self.in_text = false;
        }
    }

    /// Takes a byte outside texts.
    fn take_outside(&mut self, byte: u8) {
        match byte {
            b'"' => self.in_text = true,
            b'[' | b'{' => {
                self.open = self.open.saturating_add(1);
                self.found.nested = self.found.nested.max(self.open);
            }
            b']' | b'}' => self.open = self.open.saturating_sub(1),
            _ => {}
        }
    }

    fn take(&mut self, byte: u8) {
        self.look_for_entry(byte);
        if self.in_text {
            self.take_in_text(byte);
        } else {
            self.take_outside(byte);
        }
    }
}

/// How deep the run of a source goes, by its bytes.
pub fn depths_of(bytes: &[u8]) -> Depths {
    let mut look = Look::new();
    for byte in bytes {
        look.take(*byte);
    }
    look.found
}

/// How deep a source goes of which nothing is known yet.
pub fn deepest() -> Depths {
    Depths {
        nested: DEEPEST,
        made: 0,
    }
}

/// The bytes of stack for a run with scopes up to a height, whose source is so deep.
pub fn stack_of(height: u64, depths: Depths) -> usize {
    let levels = (depths.nested.min(DEEPEST) / 2).saturating_add(1);
    let all = height.saturating_add(1).saturating_mul(levels);
    all.saturating_mul(LEVEL).max(LEAST) as usize
}
