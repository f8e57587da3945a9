//! A table of locks that is asked for units of one of its files. A prefix is written as a number:
//! its bits stand behind the highest bit that is set, as in 0b1_01.
ghost use Rattle.std.specs.Prelude.{◌≡◌, length};

use ml_bits::Bits;
use ml_desk::Mode;
use ml_locks::{Asked, Table};
use std::alloc::{AllocError, Global};
use std::process::Abort;

/// What a request comes to. A death has the session in the way and the prefix of the unit.
#[derive(Clone, Copy, Debug, PartialEq, Eq)]
pub enum Told {
    Granted,
    Wait(u32),
    Died(u32, u32),
    Refused,
}

/// The locks of two files, of which the second one is asked for.
#[derive(Drop)]
pub struct Locks {
    table: Table,
    ghost files: { length table ≡ 2 },
}

/// The prefix that a number writes.
pub fn prefix(alloc: Global, number: u32) -> Result<Bits, AllocError> {
    let mut bits = Bits::empty(alloc);
    for place in 0..8 {
        let below = 7_u32.saturating_sub(place);
        if number >> below > 1 {
            bits.push(number >> below & 1 == 1)?;
        }
    }
    Ok(bits)
}

// The number that writes a prefix.
fn number_of(prefix: &Bits) -> u32 {
    let mut number = 1;
    for i in 0..prefix.len() {
        number = number << 1 | u32::from(prefix.bit(i));
    }
    number
}

fn prefixes(alloc: Global, numbers: &[u32]) -> Result<Vec<Bits>, AllocError> {
    let mut prefixes = Vec::new(alloc);
    for number in numbers {
        prefixes.push(prefix(alloc, *number)?)?;
    }
    Ok(prefixes)
}

fn told_of(asked: &Asked) -> Told {
    match asked {
        Asked::Granted => Told::Granted,
        Asked::Wait(holder) => Told::Wait(*holder),
        Asked::Died(death) => Told::Died(death.holder, number_of(&death.unit)),
        Asked::OutOfMemory => Told::Refused,
    }
}

impl Locks {
    /// Nobody holds any unit.
    pub fn new(alloc: Global) -> Result<Locks, AllocError> {
        let table = Table::new(alloc, 2)?;
        Ok(Locks { table })
    }

    /// What a session that asks for some units in a mode comes to.
    pub fn request(
        &mut self,
        alloc: Global,
        session: u32,
        units: &[u32],
        mode: Mode,
    ) -> Result<Told, AllocError> {
        let units = prefixes(alloc, units)?;
        let asked = self.table.request(session, 1, &units, mode);
        Ok(told_of(&asked))
    }

    /// The mode in which a session holds a unit.
    pub fn mode_of(
        &self,
        alloc: Global,
        session: u32,
        unit: u32,
    ) -> Result<Option<Mode>, AllocError> {
        let unit = prefix(alloc, unit)?;
        Ok(self.table.mode_of(session, 1, &unit))
    }

    /// Who holds the first unit holds the second one too, and nobody else does.
    pub fn inherit(&mut self, alloc: Global, from: u32, to: u32) -> Result<(), AllocError> {
        let (from, to) = (prefix(alloc, from)?, prefix(alloc, to)?);
        self.table.inherit(1, &from, &to)
    }

    /// Nobody holds a unit any more.
    pub fn forget(&mut self, alloc: Global, unit: u32) -> Result<(), AllocError> {
        let unit = prefix(alloc, unit)?;
        self.table.forget(1, &unit);
        Ok(())
    }

    /// A session holds nothing any more.
    pub fn release(&mut self, session: u32) {
        self.table.release(session);
    }

    /// Whether anybody holds a unit.
    pub fn is_held(&self, alloc: Global, unit: u32) -> Result<bool, AllocError> {
        let unit = prefix(alloc, unit)?;
        Ok(self.table.is_held(1, &unit))
    }

    /// A session that holds a unit only reads it from now on, or holds it no more.
    pub fn weaken(
        &mut self,
        rt: &impl Abort,
        alloc: Global,
        session: u32,
        unit: u32,
        mode: Option<Mode>,
    ) -> Result<(), AllocError> {
        let unit = prefix(alloc, unit)?;
        assert!(rt; self.table.mode_of(session, 1, &unit).is_some());
        assert!(rt; mode != Some(Mode::X));
        self.table.weaken(session, 1, &unit, mode);
        Ok(())
    }
}
