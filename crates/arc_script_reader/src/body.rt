//! The lines of threads: variables, phases and operations.

ghost use Rattle.std.specs.Prelude.{◌≡◌, ◌++◌, map, OnOk};
ghost use Rattle.arc_script.specs.BodyLines.{closed, thread_line, var_line, op_line, with_op, has_block, end_line, phase_line, is_place, place_in, schedule_line, done_line};
ghost use Rattle.std.specs.List.{list_all};
ghost use Rattle.arc_script.specs.Grammar.{no_body};
ghost use Rattle.arc_script.specs.Reading.{Enters};

use crate::head::Head;
use arc_script::{
    Keyword, LineFault, Op, Reason, ThreadDecl, VarDecl, begins_block, decl_of, goes_to, op_of,
};
use arc_text::number_in;
use sqlite_items::Items;
use std::alloc::{AllocError, Global};
use std::marker::Model;
use std::mem;

/// What the lines of threads and of the schedule say so far. The inmost open block is the last of `opened`. Seen as `BodySaid`.
#[derive(Drop)]
pub struct Body {
    threads: Items<ThreadDecl>,
    vars: Items<VarDecl>,
    phases: Items<Items<Op>>,
    ops: Items<Op>,
    opened: Items<u32>,
    count: u32,
    schedule: Items<u32>,
}

impl Model for Body {
    ghost use Rattle.std.specs.Prelude.{◌≤◌, length, reverse};
    ghost use Rattle.arc_script.specs.Said.{BodySaid};

    ghost Value = { BodySaid };

    ghost view = { λ b. record { threads = b.threads; vars = b.vars; phases = b.phases; ops = b.ops; opened = reverse b.opened; count = b.count; schedule = b.schedule } };

    ghost invariant = { λ b. (length b.vars ≤ 256) × (length b.ops ≤ b.count) × (b.count ≤ 100000) };
}

/// Whether the word is the number of a thread that there is.
fn is_place(threads: usize, word: &[u8]) -> bool
    ensures { result ≡ is_place threads word.now }
{
    match number_in(word, 1, 4_294_967_295) {
        Some(number) => number as usize <= threads,
        None => false,
    }
}

fn are_places(threads: usize, words: &[&[u8]]) -> bool
    ensures { result ≡ list_all (is_place threads) (map (λ w. w.now) words.now) }
{
    words.iter().all(|w| is_place(threads, w))
}

fn add_places(schedule: &mut Items<u32>, words: &[&[u8]]) -> Result<(), AllocError>
    ensures { OnOk result (schedule.new ≡ schedule.old ++ map place_in (map (λ w. w.now) words.now)) }
{
    for word in words {
        let place = number_in(word, 1, 4_294_967_295).unwrap_or(0);
        schedule.push(place)?;
    }
    Ok(())
}

impl Body {
    /// A body of which nothing was read.
    pub fn new(alloc: Global) -> Body
        ensures { result ≡ no_body }
    {
        Body {
            threads: Items::new(alloc),
            vars: Items::new(alloc),
            phases: Items::new(alloc),
            ops: Items::new(alloc),
            opened: Items::new(alloc),
            count: 0,
            schedule: Items::new(alloc),
        }
    }

    /// The open thread goes to the threads.
    pub fn close(&mut self, alloc: Global) -> Result<(), AllocError>
        ensures { OnOk result (self.new ≡ closed self.old) }
    {
        let ops = mem::replace(&mut self.ops, Items::new(alloc));
        self.phases.push(ops)?;
        let vars = mem::replace(&mut self.vars, Items::new(alloc));
        let phases = mem::replace(&mut self.phases, Items::new(alloc));
        self.threads.push(ThreadDecl { vars, phases })
    }

    pub fn take_thread(&mut self, number: &[u8]) -> Result<(), LineFault>
        ensures { Enters result (thread_line self.old number.now) self.new }
    {
        let Some(number) = number_in(number, 1, 4_294_967_295) else {
            return Err(LineFault::Refused(Reason::Number));
        };
        if number as usize - 1 != self.threads.len() {
            return Err(LineFault::Refused(Reason::Number));
        }
        if self.threads.len() >= 64 {
            return Err(LineFault::Refused(Reason::TooMany));
        }
        if self.has_block() {
            return Err(LineFault::Refused(Reason::OpenBlock));
        }
        Ok(())
    }

    pub fn take_var(
        &mut self,
        alloc: Global,
        head: &Head,
        name: &[u8],
        kind: &[u8],
        class: &[u8],
    ) -> Result<(), LineFault>
        ensures { Enters result (var_line head.now self.old name.now kind.now class.now) self.new }
    {
        let var = decl_of(
            alloc,
            256,
            self.vars.as_slice(),
            head.classes(),
            name,
            kind,
            class,
        )?;
        self.vars.push(var)?;
        Ok(())
    }

    pub fn take_op(
        &mut self,
        head: &Head,
        keyword: Keyword,
        words: &[&[u8]],
    ) -> Result<(), LineFault>
        ensures { Enters result (op_line head.now self.old keyword (map (λ w. w.now) words.now)) self.new }
    {
        match op_of(
            head.classes(),
            head.globals(),
            self.vars.as_slice(),
            keyword,
            words,
        ) {
            Ok(op) => self.add_op(op),
            Err(reason) => Err(LineFault::Refused(reason)),
        }
    }

    fn add_op(&mut self, op: Op) -> Result<(), LineFault>
        ensures { Enters result (with_op self.old (Ok op)) self.new }
    {
        let begins = begins_block(op);
        if self.count >= 100_000 || (begins && self.opened.len() >= 8) {
            return Err(LineFault::Refused(Reason::TooMany));
        }
        let place = self.ops.len() as u32;
        self.count += 1;
        self.ops.push(op)?;
        if begins {
            self.opened.push(place)?;
        }
        Ok(())
    }

    /// Ends the inmost open block.
    pub fn take_end(&mut self) -> Result<(), LineFault>
        ensures { Enters result (end_line self.old) self.new }
    {
        let Some(place) = self.opened.pop() else {
            return Err(LineFault::Refused(Reason::OpenBlock));
        };
        let to = self.ops.len() as u32;
        if let Some(op) = self.ops.get(place as usize) {
            let ended = goes_to(to, *op);
            self.ops.set(place as usize, ended);
        }
        Ok(())
    }

    /// Whether a block is open.
    pub fn has_block(&self) -> bool
        ensures { result ≡ has_block self.now.opened }
    {
        !self.opened.is_empty()
    }

    pub fn take_phase(&mut self, alloc: Global) -> Result<(), LineFault>
        ensures { Enters result (phase_line self.old) self.new }
    {
        if self.phases.len() >= 63 {
            return Err(LineFault::Refused(Reason::TooMany));
        }
        if self.has_block() {
            return Err(LineFault::Refused(Reason::OpenBlock));
        }
        let ops = mem::replace(&mut self.ops, Items::new(alloc));
        self.phases.push(ops)?;
        Ok(())
    }

    pub fn take_schedule(&mut self, words: &[&[u8]]) -> Result<(), LineFault>
        ensures { Enters result (schedule_line self.old (map (λ w. w.now) words.now)) self.new }
    {
        if !are_places(self.threads.len(), words) {
            return Err(LineFault::Refused(Reason::Number));
        }
        if self.schedule.len() > 1_000_000 || words.len() > 1_000_000 - self.schedule.len() {
            return Err(LineFault::Refused(Reason::TooMany));
        }
        if self.has_block() {
            return Err(LineFault::Refused(Reason::OpenBlock));
        }
        add_places(&mut self.schedule, words)?;
        Ok(())
    }

    pub fn take_done(&mut self) -> Result<(), LineFault>
        ensures { Enters result (done_line self.old) self.new }
    {
        if self.has_block() {
            return Err(LineFault::Refused(Reason::OpenBlock));
        }
        Ok(())
    }

    /// The threads and the schedule.
    pub fn into_parts(self) -> (Items<ThreadDecl>, Items<u32>)
        ensures threads { result.0 ≡ self.threads }
        ensures schedule { result.1 ≡ self.schedule }
    {
        let Body {
            threads,
            schedule,
            ..
        } = self;
        (threads, schedule)
    }
}
