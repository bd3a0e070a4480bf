//! The counts of all commands.

ghost use Rattle.std.specs.Prelude.{◌≡◌, ◌<◌, ◌≤◌, ℕ, ◌&&◌, List, [], ◌∷◌, length, nat_lt, slice_get, IfOk, IfSome, IfNone, option_map, true, false};
ghost use Rattle.resp_stats.specs.Rows.{CountsCall, HasNoCall, MayAddRow, has_name, row_has};

use crate::name::Name;
use crate::row::{Call, CommandRow};
use std::alloc::{AllocError, Global};

/// The maximum number of rows: one for each of 256 names, and the first for all other commands.
const MOST_ROWS: usize = 257;

/// The number of places that are remembered.
const SLOTS: usize = 256;

/// The counts of all commands, in a row for each name. The first row is that of the commands whose
/// name has no row of its own, because there are 256 names already or because an allocation failed.
#[derive(Drop)]
pub struct Counts {
    pub(crate) rows: Vec<CommandRow>,
    /// The place of the row that was last found for a name, indexed by a hash of the name.
    recent: [usize; SLOTS],
    ghost some: { 0 < length rows.items },
    ghost few: { length rows.items ≤ 257 },
}

/// Returns a hash of the bytes of a name.
fn slot_of(name: &Name) -> usize
    ensures { result < 256 }
{
    let mut sum = 0u32;
    for byte in name.as_bytes() {
        sum = sum.wrapping_mul(31).wrapping_add(u32::from(*byte));
    }
    sum as usize % SLOTS
}

/// Returns whether a row has this name.
fn row_has(row: Option<&CommandRow>, name: &Name) -> bool
    ensures { result ≡ row_has name.now.text.items (option_map (λ row. row.now) row.entry) }
{
    match row {
        Some(row) => row.name.as_bytes() == name.as_bytes(),
        None => false,
    }
}

impl Counts {
    /// Returns counts without calls.
    ///
    /// # Errors
    ///
    /// `AllocError` if an allocation fails.
    pub fn new(alloc: Global) -> Result<Counts, AllocError>
        ensures { IfOk result (λ counts. (others : CommandRow) × HasNoCall others ×
            (counts.rows.items ≡ others ∷ [])) }
    {
        let mut rows = Vec::new(alloc);
        rows.push(CommandRow::new(Name::of_others()))?;
        Ok(Counts {
            rows,
            recent: [0; SLOTS],
        })
    }

    /// Returns the rows. The first one is that of the commands without a row of their own.
    pub fn rows(&self) -> &[CommandRow]
        ensures rows { result.now ≡ self.now.rows.items }
        ensures few { length result.now ≤ 257 }
    {
        self.rows.as_slice()
    }

    /// Returns the place of the row of a name. If there is no row, one is added. The place is 0 if
    /// an allocation fails or there are 256 names already.
    pub fn place_of(&mut self, name: &Name) -> usize
        ensures within { result < length self.new.rows.items }
        ensures named { 0 < result → has_name name.now.text.items self.new.rows.items result ≡ true }
        ensures rows { MayAddRow name.now.text.items self.old.rows.items self.new.rows.items }
        ensures found { (place : ℕ) → 0 < place → has_name name.now.text.items self.old.rows.items place ≡ true →
            (0 < result) × (self.new.rows.items ≡ self.old.rows.items) }
        ensures added { result ≡ 0 → self.new.rows.items ≡ self.old.rows.items }
    {
        let slot = slot_of(name);
        let recent = self.recent[slot];
        if self.has_name(recent, name) {
            return recent;
        }
        let place = self.find_or_add(name);
        self.recent[slot] = place;
        place
    }

    /// Counts a command with its reply in the row at this place.
    pub fn count(&mut self, place: usize, call: Call)
        requires { place < length self.old.rows.items }
        ensures { CountsCall place call self.old.rows.items self.new.rows.items }
    {
        self.rows[place].add(call);
    }

    /// Returns whether the row at this place has this name, and is not the first.
    fn has_name(&self, place: usize, name: &Name) -> bool
        ensures { result ≡ (nat_lt 0 place && has_name name.now.text.items self.now.rows.items place) }
    {
        place > 0 && row_has(self.rows.get(place), name)
    }

    /// Returns the place of the row of a name, after looking through all rows.
    fn find_or_add(&mut self, name: &Name) -> usize
        ensures within { result < length self.new.rows.items }
        ensures named { 0 < result → has_name name.now.text.items self.new.rows.items result ≡ true }
        ensures rows { MayAddRow name.now.text.items self.old.rows.items self.new.rows.items }
        ensures found { (place : ℕ) → 0 < place → has_name name.now.text.items self.old.rows.items place ≡ true →
            (0 < result) × (self.new.rows.items ≡ self.old.rows.items) }
        ensures added { result ≡ 0 → self.new.rows.items ≡ self.old.rows.items }
    {
        if let Some(place) = self.find(name) {
            return place;
        }
        let place = self.rows.len();
        if place >= MOST_ROWS || self.rows.push(CommandRow::new(name.copied())).is_err() {
            return 0;
        }
        place
    }

    /// Returns the place of the row of a name, if there is one.
    fn find(&self, name: &Name) -> Option<usize>
        ensures some { IfSome result (λ place. (0 < place) ×
            (has_name name.now.text.items self.now.rows.items place ≡ true)) }
        ensures none { IfNone result ((place : ℕ) → 0 < place →
            has_name name.now.text.items self.now.rows.items place ≡ false) }
    {
        for place in 1..self.rows.len() {
            if self.has_name(place, name) {
                return Some(place);
            }
        }
        None
    }
}
