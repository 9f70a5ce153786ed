//! Rows of places of hands and cells, by their numbers.
ghost use Rattle.std.specs.Prelude.{◌≡◌, ◌<◌, ℕ, List, Option, length, ◌++◌, ◌∷◌, [], Some, None, OnOk, OnErr, IfOk};
ghost use Rattle.arc_heap_index.specs.declared.counted.Place.{Place};
ghost use Rattle.arc_heap_index.specs.Counting.{placed, flat, place_at, put_at, pushed, popped, without_end, row_of};
ghost use Rattle.std.specs.Prelude.{slice_get};
ghost use Rattle.arc_heap_index.specs.Fresh.{IsBlank, AreBlank, IsBlankTable};

use crate::counted::Place;
use std::alloc::{AllocError, Global};
use std::marker::Model;

/// The places of hands or cells, by their numbers; none where a hand is gone or a cell is nil.
#[derive(Debug, Drop)]
pub struct Row {
    places: Vec<Option<Place>>,
}

impl Model for Row {
    ghost use Rattle.std.specs.Prelude.{List, Option};
    ghost use Rattle.arc_heap_index.specs.declared.counted.Place.{Place};

    ghost Value = { List (Option Place) };

    ghost view = { λ r. r.places.items };
}

impl Row {
    fn new(alloc: Global, count: usize) -> Result<Row, AllocError>
        ensures { IfOk result (IsBlank count) }
    {
        let mut places = Vec::new(alloc);
        for _ in 0..count {
            places.push(None)?;
        }
        Ok(Row { places })
    }

    fn at(&self, number: usize) -> Option<Place>
        ensures { result ≡ flat (slice_get self.now number) }
    {
        match self.places.get(number) {
            Some(place) => *place,
            None => None,
        }
    }

    #[tactic(auto, using(crate::proofs::Places::places))]
    fn put(&mut self, number: u32, place: Option<Place>)
        ensures { self.new ≡ placed number place self.old }
    {
        if (number as usize) < self.places.len() {
            self.places[number as usize] = place;
        }
    }

    fn push(&mut self, place: Option<Place>) -> Result<(), AllocError>
        ensures ok { OnOk result (self.new ≡ self.old ++ place ∷ []) }
        ensures err { OnErr result (self.new ≡ self.old) }
    {
        self.places.push(place)?;
        Ok(())
    }

    // Takes back what was pushed last.
    fn pop(&mut self)
        ensures { self.new ≡ without_end self.old }
    {
        let _ = self.places.pop();
    }

    fn length(&self) -> usize
        ensures { result ≡ length self.now }
    {
        self.places.len()
    }
}

/// Rows of places.
#[derive(Debug, Drop)]
pub struct Table {
    rows: Vec<Row>,
}

impl Model for Table {
    ghost use Rattle.std.specs.Prelude.{List, Option};
    ghost use Rattle.arc_heap_index.specs.declared.counted.Place.{Place};

    ghost Value = { List (List (Option Place)) };

    ghost view = { λ t. t.rows.items };
}

fn blank_rows(alloc: Global, count: u32, columns: usize) -> Result<Vec<Row>, AllocError>
    ensures { IfOk result (λ v. AreBlank count columns v.items) }
{
    let mut rows = Vec::new(alloc);
    for _ in 0..count {
        rows.push(Row::new(alloc, columns)?)?;
    }
    Ok(rows)
}

impl Table {
    /// That many rows of places each, and one more row of `last` places, all of them none.
    pub fn new(alloc: Global, count: u32, columns: usize, last: usize) -> Result<Table, AllocError>
        ensures { IfOk result (IsBlankTable count columns last) }
    {
        let mut rows = blank_rows(alloc, count, columns)?;
        rows.push(Row::new(alloc, last)?)?;
        Ok(Table { rows })
    }

    pub fn at(&self, row: u32, number: usize) -> Option<Place>
        ensures { result ≡ place_at row number self.now }
    {
        match self.rows.get(row as usize) {
            Some(places) => places.at(number),
            None => None,
        }
    }

    /// How many places the row has.
    pub fn length(&self, row: u32) -> usize
        ensures { result ≡ length (row_of row self.now) }
    {
        match self.rows.get(row as usize) {
            Some(places) => places.length(),
            None => 0,
        }
    }

    #[tactic(auto, using(crate::proofs::Places::places))]
    pub fn put(&mut self, row: u32, number: u32, place: Option<Place>)
        ensures { self.new ≡ put_at row number place self.old }
    {
        if (row as usize) < self.rows.len() {
            let places = &mut self.rows[row as usize];
            places.put(number, place);
        }
    }

    #[tactic(auto, using(crate::proofs::Places::places))]
    pub fn push(&mut self, row: u32, place: Option<Place>) -> Result<(), AllocError>
        ensures ok { OnOk result (self.new ≡ pushed row place self.old) }
        ensures err { OnErr result (self.new ≡ self.old) }
    {
        if (row as usize) < self.rows.len() {
            let places = &mut self.rows[row as usize];
            places.push(place)
        } else {
            Ok(())
        }
    }

    /// Takes back what was pushed last.
    #[tactic(auto, using(crate::proofs::Places::places))]
    pub fn pop(&mut self, row: u32)
        ensures { self.new ≡ popped row self.old }
    {
        if (row as usize) < self.rows.len() {
            let places = &mut self.rows[row as usize];
            places.pop();
        }
    }
}
