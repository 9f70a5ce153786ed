//! The reader: the lines that are left, and where it stands.

ghost use Rattle.std.specs.Prelude.{◌≤◌, length, map};

use crate::body::Body;
use crate::head::Head;
use arc_script::{
    Keyword, LineFault, Place, ReadFault, Reason, Script, is_heading_word, is_open, keyword_of,
    stands,
};
use arc_text::{are_plain, is_comment, number_in, words_of};
use std::alloc::{AllocError, Global};

/// What the lines of a text say so far, and which line came last.
#[derive(Drop)]
pub struct Reader<'a> {
    pub place: Place,
    pub head: Head<'a>,
    pub body: Body,
}

impl<'a> Reader<'a> {
    ghost use Rattle.std.specs.Prelude.{◌≡◌, OnOk};
    ghost use Rattle.arc_text.specs.Lines.{lines_of};
    ghost use Rattle.arc_script.specs.Grammar.{nothing, with_body, class_form, heading_form, settled, arc_line, body_form, said_line, any_line, ended};
    ghost use Rattle.arc_script.specs.BodyLines.{thread_line, op_line, schedule_line};
    ghost use Rattle.arc_script.specs.Reading.{Enters, Reads};
    ghost use Rattle.arc_script_reader.specs.Fronts.{front};

    /// A reader that has read nothing, where lines may come as behind such a line in a text of this version.
    pub fn new(alloc: Global, version: u32, place: Place) -> Reader<'a>
        ensures { front result ≡ nothing version place }
    {
        Reader {
            place,
            head: Head::new(alloc, version),
            body: Body::new(alloc),
        }
    }

    fn take_class(
        &mut self,
        alloc: Global,
        immortal: bool,
        words: &[&'a [u8]],
        rest: &'a [u8],
    ) -> Result<(), LineFault>
        requires { length (lines_of rest.now) ≤ 67108864 }
        ensures { Enters result (class_form (front self.old) immortal (map (λ w. w.now) words.now) (lines_of rest.now)) (front self.new) }
    {
        if self.place != Place::Class {
            self.head.look_ahead(alloc, immortal, words, rest)?;
        }
        self.head.take_class(alloc, immortal, words)?;
        self.place = Place::Class;
        Ok(())
    }

    /// Enters a line of the heading.
    pub fn take_heading(
        &mut self,
        alloc: Global,
        keyword: Keyword,
        words: &[&'a [u8]],
        rest: &'a [u8],
    ) -> Result<(), LineFault>
        requires { length (lines_of rest.now) ≤ 67108864 }
        ensures { Enters result (heading_form (front self.old) keyword (map (λ w. w.now) words.now) (lines_of rest.now)) (front self.new) }
    {
        match keyword {
            Keyword::Slots => match words {
                [number] => {
                    self.head.take_slots(number)?;
                    self.place = Place::Slots;
                    Ok(())
                }
                _ => Err(LineFault::Refused(Reason::WordCount)),
            },
            Keyword::Entries => match words {
                [number] => {
                    self.head.take_entries(number)?;
                    self.place = Place::Entries;
                    Ok(())
                }
                _ => Err(LineFault::Refused(Reason::WordCount)),
            },
            Keyword::Caps => match words {
                [strong, unowned, wide] => {
                    self.head.take_caps(strong, unowned, wide)?;
                    self.place = Place::Caps;
                    Ok(())
                }
                _ => Err(LineFault::Refused(Reason::WordCount)),
            },
            Keyword::Class => self.take_class(alloc, false, words, rest),
            Keyword::Immortal => self.take_class(alloc, true, words, rest),
            Keyword::Global => match words {
                [name, kind, class] => {
                    self.head.take_global(alloc, name, kind, class)?;
                    self.place = Place::Global;
                    Ok(())
                }
                _ => Err(LineFault::Refused(Reason::WordCount)),
            },
            _ => Err(LineFault::Refused(Reason::WordCount)),
        }
    }

    /// Closes an open thread.
    fn settle(&mut self, alloc: Global) -> Result<(), AllocError>
        ensures place { self.new.place ≡ self.old.place }
        ensures head { self.new.head ≡ self.old.head }
        ensures body { OnOk result (self.new.body ≡ settled (front self.old)) }
    {
        if is_open(self.place) {
            self.body.close(alloc)?;
        }
        Ok(())
    }

    fn take_arc(&mut self, version: &[u8]) -> Result<(), LineFault>
        ensures { Enters result (arc_line (front self.old) version.now) (front self.new) }
    {
        let Some(version) = number_in(version, 1, 2) else {
            return Err(LineFault::Refused(Reason::Number));
        };
        self.head.take_version(version);
        self.place = Place::Version;
        Ok(())
    }

    fn take_thread(&mut self, alloc: Global, number: &[u8]) -> Result<(), LineFault>
        ensures { Enters result (with_body (front self.old) Place.Thread (thread_line (settled (front self.old)) number.now)) (front self.new) }
    {
        self.settle(alloc)?;
        self.body.take_thread(number)?;
        self.place = Place::Thread;
        Ok(())
    }

    fn take_schedule(&mut self, alloc: Global, words: &[&[u8]]) -> Result<(), LineFault>
        ensures { Enters result (with_body (front self.old) Place.Schedule (schedule_line (settled (front self.old)) (map (λ w. w.now) words.now))) (front self.new) }
    {
        self.settle(alloc)?;
        self.body.take_schedule(words)?;
        self.place = Place::Schedule;
        Ok(())
    }

    fn take_op(&mut self, keyword: Keyword, words: &[&[u8]]) -> Result<(), LineFault>
        ensures { Enters result (with_body (front self.old) Place.Operation (op_line (front self.old).head (front self.old).body keyword (map (λ w. w.now) words.now))) (front self.new) }
    {
        self.body.take_op(&self.head, keyword, words)?;
        self.place = Place::Operation;
        Ok(())
    }

    fn take_body(
        &mut self,
        alloc: Global,
        keyword: Keyword,
        words: &[&[u8]],
    ) -> Result<(), LineFault>
        ensures { Enters result (body_form (front self.old) keyword (map (λ w. w.now) words.now)) (front self.new) }
    {
        match keyword {
            Keyword::Arc => match words {
                [version] => self.take_arc(version),
                _ => Err(LineFault::Refused(Reason::WordCount)),
            },
            Keyword::Thread => match words {
                [number] => self.take_thread(alloc, number),
                _ => Err(LineFault::Refused(Reason::WordCount)),
            },
            Keyword::Var => match words {
                [name, kind, class] => {
                    self.body.take_var(alloc, &self.head, name, kind, class)?;
                    self.place = Place::Thread;
                    Ok(())
                }
                _ => Err(LineFault::Refused(Reason::WordCount)),
            },
            Keyword::New
            | Keyword::Drop
            | Keyword::Pair(_)
            | Keyword::Get
            | Keyword::Set
            | Keyword::Block(_) => self.take_op(keyword, words),
            Keyword::End => match words {
                [] => {
                    self.body.take_end()?;
                    self.place = Place::Operation;
                    Ok(())
                }
                _ => Err(LineFault::Refused(Reason::WordCount)),
            },
            Keyword::Phase => match words {
                [] => {
                    self.body.take_phase(alloc)?;
                    self.place = Place::Operation;
                    Ok(())
                }
                _ => Err(LineFault::Refused(Reason::WordCount)),
            },
            Keyword::Schedule => match words {
                [] => Err(LineFault::Refused(Reason::WordCount)),
                _ => self.take_schedule(alloc, words),
            },
            Keyword::Done => match words {
                [] => {
                    self.settle(alloc)?;
                    self.body.take_done()?;
                    self.place = Place::Ended;
                    Ok(())
                }
                _ => Err(LineFault::Refused(Reason::WordCount)),
            },
            _ => Err(LineFault::Refused(Reason::WordCount)),
        }
    }

    fn take_words(
        &mut self,
        alloc: Global,
        line: &[u8],
        first: &[u8],
        words: &[&'a [u8]],
        rest: &'a [u8],
    ) -> Result<(), LineFault>
        requires { length (lines_of rest.now) ≤ 67108864 }
        ensures { Enters result (said_line (front self.old) line.now first.now (map (λ w. w.now) words.now) (lines_of rest.now)) (front self.new) }
    {
        if !are_plain(line) {
            return Err(LineFault::Refused(Reason::Byte));
        }
        let Some(keyword) = keyword_of(first) else {
            return Err(LineFault::Refused(Reason::FirstWord));
        };
        if !stands(self.head.version(), self.place, keyword) {
            return Err(LineFault::Refused(Reason::FirstWord));
        }
        if is_heading_word(keyword) {
            self.take_heading(alloc, keyword, words, rest)
        } else {
            self.take_body(alloc, keyword, words)
        }
    }

    /// Enters the next line; the rest is the text behind it.
    #[tactic(auto, unfolding(arc_script::specs::Grammar::any_line))]
    pub fn take_line(
        &mut self,
        alloc: Global,
        line: &'a [u8],
        rest: &'a [u8],
    ) -> Result<(), LineFault>
        requires { length (lines_of rest.now) ≤ 67108864 }
        ensures { Enters result (any_line (front self.old) line.now (lines_of rest.now)) (front self.new) }
    {
        let words = words_of(alloc, line)?;
        match words.as_slice() {
            [] => Ok(()),
            [first, words @ ..] => {
                if is_comment(first) {
                    return Ok(());
                }
                self.take_words(alloc, line, first, words, rest)
            }
        }
    }

    /// The script, where the text may end before the line with this number.
    pub fn finish(self, alloc: Global, line: u32) -> Result<Script, ReadFault>
        ensures { Reads result (ended line (front self.entry)) }
    {
        let Reader { place, head, body } = self;
        if place != Place::Ended {
            return Err(ReadFault::Refused {
                line,
                why: Reason::FirstWord.number(),
            });
        }
        let version = head.version();
        let (shape, classes, globals) = head.into_parts(alloc)?;
        let (threads, schedule) = body.into_parts();
        Ok(Script {
            version,
            shape,
            classes,
            globals,
            threads,
            schedule,
        })
    }
}
