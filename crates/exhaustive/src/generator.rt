// Small records of both kinds, always the same ones for a seed. Most are right; some have wrong rows or a wrong trailer.
ghost use Rattle.std.specs.Prelude.{◌≡◌, ◌<◌};
ghost use Rattle.std.specs.Iterator.{at_most};

use crate::trial::{kind_byte, row_len};
use records::Kind;
use std::alloc::{AllocError, Global};

// Some records of one kind.
#[derive(Drop)]
pub struct Generator {
    kind: Kind,
    heap: Global,
    left: u32,
    random: Random,
}

#[derive(Drop)]
struct Random {
    // Never 0, from which only 0 would follow.
    state: u64,
}

// What is written after the rows. Unlike a trailer of the library it may be wrong, and so has every field.
#[derive(Clone, Copy)]
struct Trailer {
    code: u8,
    items: u8,
    rows: u16,
    distance: u32,
}

impl Generator {
    pub fn new(heap: Global, kind: Kind, count: u32) -> Generator
        ensures { (result.kind ≡ kind) × (result.left ≡ count) }
    {
        Generator {
            kind,
            heap,
            left: count,
            random: Random {
                state: 0x9e37_79b9_7f4a_7c15,
            },
        }
    }
}

impl Iterator for Generator {
    type Item = Result<Vec<u8>, AllocError>;

    ghost remaining = { λ s. at_most s.left };

    fn next(&mut self) -> Option<Result<Vec<u8>, AllocError>> {
        if self.left == 0 {
            return None;
        }
        self.left -= 1;
        Some(self.random.record(self.heap, self.kind))
    }
}

impl Random {
    // A record of one to five items, more often of many.
    fn record(&mut self, heap: Global, kind: Kind) -> Result<Vec<u8>, AllocError> {
        let items = self.between(1, 5).max(self.between(1, 5));
        // A `match`, as in the trial.
        let mut record = match kind {
            Kind::Clauses => self.clauses(heap, items)?,
            Kind::Orders => self.orders(heap, items)?,
        };
        if self.below(6) == 0 {
            for _ in 0..self.between(1, 3) {
                self.spoil(&mut record, items);
            }
        }
        // There are far fewer than 2^16 bytes, so nothing is cut off.
        let distance = (record.len() & 0xffff) as u16;
        let mut trailer = Trailer {
            code: kind_byte(kind),
            items,
            rows: distance / u16::from(row_len(kind, items)).max(1),
            distance: u32::from(distance),
        };
        if self.below(6) == 0 {
            for _ in 0..self.between(1, 2) {
                self.spoil_trailer(&mut trailer);
            }
        }
        trailer.write(&mut record)?;
        match self.below(40) {
            0 => record.truncate(usize::from(self.below(8))),
            // The distance is then one too short.
            1 => record.insert(0, 0)?,
            _ => {}
        }
        Ok(record)
    }

    // Some alternatives of each item, mostly one to four. An item with none cannot be reached, and a fifth is wrong.
    fn clauses(&mut self, heap: Global, items: u8) -> Result<Vec<u8>, AllocError> {
        let mut rows = Vec::new(heap);
        for item in 0..items {
            let count = match self.below(40) {
                0 => 0,
                1 => 5,
                other => other % 4 + 1,
            };
            let mut alternative = 0;
            for _ in 0..count {
                // Now and then the one before is repeated.
                if self.below(5) > 0 {
                    alternative = self.alternative(items, item);
                }
                rows.extend_from_slice(&[item, alternative, 0, 0, 0])?;
            }
        }
        Ok(rows)
    }

    // A set of other items: none of them, few, only lower ones, or any.
    fn alternative(&mut self, items: u8, item: u8) -> u8 {
        let others = low_bits(items) & !(low_bits(item.saturating_add(1)) ^ low_bits(item));
        match self.below(4) {
            0 => 0,
            1 => self.byte() & self.byte() & others,
            2 => self.byte() & low_bits(item),
            _ => self.byte() & others,
        }
    }

    // One to sixteen orders of the items; often only a few, since many give nearly every set.
    fn orders(&mut self, heap: Global, items: u8) -> Result<Vec<u8>, AllocError> {
        let most = if self.below(3) > 0 { 3 } else { 16 };
        let mut rows = Vec::new(heap);
        for _ in 0..self.between(1, most) {
            let mut row = Vec::new(heap);
            for item in 0..items {
                let at = usize::from(self.below(item.saturating_add(1)));
                row.insert(at.min(row.len()), item)?;
            }
            rows.extend_from_slice(row.as_slice())?;
        }
        Ok(rows)
    }

    // Overwrites a byte of the rows, mostly by one that is wrong there.
    fn spoil(&mut self, rows: &mut Vec<u8>, items: u8) {
        let at = usize::from(self.byte()) % rows.len().max(1);
        let most = if self.below(3) > 0 {
            items.saturating_add(2)
        } else {
            64
        };
        let wrong = self.below(most);
        if let Some(byte) = rows.get_mut(at) {
            *byte = wrong;
        }
    }

    fn spoil_trailer(&mut self, trailer: &mut Trailer) {
        match self.below(10) {
            // The code of the other kind.
            0 => trailer.code ^= 12,
            1 => trailer.code = self.byte(),
            2 => trailer.items = 0,
            3 => trailer.items = 31,
            4 => trailer.items = self.below(6),
            5 => trailer.rows = 0,
            6 => trailer.rows = trailer.rows.wrapping_add(256),
            7 => trailer.rows = trailer.rows.wrapping_add(1),
            8 => trailer.rows = if self.below(2) == 0 { 17 } else { 121 },
            _ => trailer.distance ^= 1 << self.below(32),
        }
    }

    fn between(&mut self, least: u8, most: u8) -> u8 {
        let span = most.saturating_sub(least).saturating_add(1);
        least.saturating_add(self.below(span))
    }

    fn below(&mut self, bound: u8) -> u8
        ensures { 0 < bound → result < bound }
    {
        if bound == 0 { 0 } else { self.byte() % bound }
    }

    fn byte(&mut self) -> u8 {
        self.state ^= self.state >> 12;
        self.state ^= self.state << 25;
        self.state ^= self.state >> 27;
        // The high bits of the product vary the most.
        let [.., high] = self.state.wrapping_mul(0x2545_f491_4f6c_dd1d).to_le_bytes();
        high
    }
}

impl Trailer {
    fn write(self, record: &mut Vec<u8>) -> Result<(), AllocError> {
        record.extend_from_slice(&[self.code, self.items])?;
        record.extend_from_slice(&self.rows.to_le_bytes())?;
        record.extend_from_slice(&self.distance.to_le_bytes())
    }
}

// The set number of the items below `n`, as far as a byte holds them.
fn low_bits(n: u8) -> u8 {
    if n < 8 { !(0xff << n) } else { 0xff }
}
