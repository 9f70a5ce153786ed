//! The fields of a dying object, one after the other: each that isn't nil is set to nil, and its reference is dropped.

ghost use Rattle.std.specs.Prelude.{◌≡◌, ◌≢◌, ◌≤◌, ◌<◌, ◌+◌, ◌-◌, ◌^◌, length, Some};
ghost use Rattle.arc_model.specs.Shapes.{class_at};
ghost use Rattle.arc_cells.specs.Drops.{IsPlaceOf, DiesInSlot};
ghost use Rattle.arc_cells.specs.Cascades.{IsNamed, HasField, IsCellWord, field_kind, looks, looked, takes_out, drops_on};

use crate::cascade::{At, Cascade, CascadeNext};
use crate::parent::Parent;
use crate::ref_drop::{RefDrop, RefDropNext};
use arc_model::{Act, Kind, ObjectName, RefShape};
use arc_rule::Step;

impl<'a> Cascade<'a> {
    fn fields_of(&self, name: ObjectName) -> &[RefShape]
        requires { IsNamed self.now.shape name }
        ensures value { result.now ≡ (class_at self.now.shape name.class).fields }
        ensures few { length result.now ≤ 8 }
    {
        let shape = self.shape;
        let class = &shape.classes()[name.class as usize];
        class.fields.as_slice()
    }

    fn kind_of(&self, name: ObjectName, field: u32) -> Kind
        requires { HasField self.now.shape name field }
        ensures { result ≡ field_kind self.now.shape name field }
    {
        self.fields_of(name)[field as usize].kind
    }

    pub(crate) fn look(&mut self, name: ObjectName, field: u32) -> CascadeNext
        requires { IsNamed self.old.shape name }
        ensures turned { self.new ≡ (looks self.old name field).after }
        ensures answer { result ≡ (looks self.old name field).says }
    {
        if (field as usize) < self.fields_of(name).len() {
            self.at = At::Looking(name, field);
            return self.of_deinit(Step::Load {
                place: self.layout.field_of(self.slot, field),
            });
        }
        self.at = At::Leaving;
        self.of_deinit(Step::Load {
            place: self.layout.next_of(self.slot),
        })
    }

    pub(crate) fn looked(&mut self, name: ObjectName, field: u32, word: u64) -> CascadeNext
        requires field { HasField self.old.shape name field }
        requires word { IsCellWord self.old.layout (field_kind self.old.shape name field) (Some word) }
        ensures turned { self.new ≡ (looked self.old name field word).after }
        ensures answer { result ≡ (looked self.old name field word).says }
    {
        let _few = self.fields_of(name).len();
        if word == 0 {
            return self.look(name, field + 1);
        }
        self.at = At::Taking(name, field, (word - 2) as u32);
        self.of_deinit(Step::Store {
            place: self.layout.field_of(self.slot, field),
            new: 0,
        })
    }

    pub(crate) fn take_out(&mut self, name: ObjectName, field: u32, place: u32) -> CascadeNext
        requires field { HasField self.old.shape name field }
        requires place { IsPlaceOf self.old.layout (field_kind self.old.shape name field) place }
        requires hands { self.old.before + self.old.taken + 1 < 2 ^ 32 }
        ensures turned { self.new ≡ (takes_out self.old name field place).after }
        ensures answer { result ≡ (takes_out self.old name field place).says }
    {
        self.taken += 1;
        let hand = self.before + self.taken;
        self.event = Some(Act::Take {
            slot: self.slot,
            field,
            hand,
        });
        let kind = self.kind_of(name, field);
        let mut drop = RefDrop::start(&self.layout, hand, kind, place);
        let next = drop.next(None);
        self.drop_on(name, field, drop, next)
    }

    pub(crate) fn drop_on(
        &mut self,
        name: ObjectName,
        field: u32,
        drop: RefDrop,
        next: RefDropNext,
    ) -> CascadeNext
        requires field { HasField self.old.shape name field }
        requires layout { drop.layout ≡ self.old.layout }
        requires dies { DiesInSlot self.old.layout next }
        ensures turned { self.new ≡ (drops_on self.old name field drop next).after }
        ensures answer { result ≡ (drops_on self.old name field drop next).says }
    {
        let _few = self.fields_of(name).len();
        match next {
            RefDropNext::Step(step, intent) => {
                self.at = At::Dropping(name, field, drop);
                CascadeNext::Step(step, intent)
            }
            RefDropNext::Dies(slot) => {
                let parent = Parent {
                    slot: self.slot,
                    field: field + 1,
                };
                self.slot = slot;
                self.enter(Some(parent))
            }
            RefDropNext::Done => self.look(name, field + 1),
        }
    }
}
