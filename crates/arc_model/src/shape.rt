//! What a heap is made of: slots, entries, caps, classes and globals, each in its range.

ghost use Rattle.std.specs.Prelude.{◌≡◌, ◌↔◌, IsTrue, IfOk};
ghost use Rattle.arc_model.specs.Ranges.{SlotsFit, EntriesFit, ClassesFit, FieldsFit, GlobalsFit, ShapeFits};

use crate::caps::Caps;
use crate::memory::Memory;
use std::alloc::Global;
use std::marker::Model;

/// The list of an object that a reference is counted in.
#[derive(Clone, Copy, Debug, PartialEq, Eq)]
pub enum Kind {
    Strong,
    Unowned,
    Weak,
}

/// What a cell may refer to: the kind of the reference and the place of the object's class among the class lines, from 0.
#[derive(Clone, Copy, Debug, PartialEq, Eq)]
pub struct RefShape {
    pub kind: Kind,
    pub class: u32,
}

/// The fields of a class, at most 8, in the order of declaration, and whether its objects are never deinited.
#[derive(Debug, Drop)]
pub struct ClassShape {
    pub fields: Vec<RefShape>,
    pub immortal: bool,
}

impl Model for ClassShape {
    ghost use Rattle.arc_model.specs.Shapes.{ObjectClass};

    ghost Value = { ObjectClass };

    ghost view = { λ c. record { fields = c.fields.items; immortal = c.immortal } };
}

/// What a heap is made of: how many slots and side table entries, the caps of the counts, the classes and the globals.
#[derive(Debug, Drop)]
pub struct Shape {
    slots: u32,
    entries: u32,
    caps: Caps,
    classes: Vec<ClassShape>,
    globals: Vec<RefShape>,
}

impl Model for Shape {
    ghost use Rattle.arc_model.specs.Shapes.{HeapShape};

    ghost Value = { HeapShape };

    ghost view = { λ s. record { slots = s.slots; entries = s.entries; caps = s.caps; classes = s.classes.items; globals = s.globals.items } };

    ghost use Rattle.arc_model.specs.Ranges.{ShapeFits};

    ghost invariant = { λ s. ShapeFits s.slots s.entries s.classes.items s.globals.items };
}

/// The first part of a shape that is out of its range.
#[derive(Clone, Copy, Debug, PartialEq, Eq)]
pub enum ShapeRefused {
    Slots,
    Entries,
    Classes,
    Fields,
    Globals,
}

fn fields_fit(classes: &[ClassShape]) -> bool
    ensures { IsTrue result ↔ FieldsFit classes.now }
{
    classes.iter().all(|c| c.fields.len() <= 8)
}

fn copied_class(alloc: Global, class: &ClassShape) -> Result<ClassShape, Memory>
    ensures equal { IfOk result (λ c. c ≡ class.now) }
{
    let mut fields = Vec::new(alloc);
    fields.extend_from_slice(class.fields.as_slice())?;
    Ok(ClassShape {
        fields,
        immortal: class.immortal,
    })
}

impl Shape {
    /// The shape, or the first of its parts that is out of range: 1 to 4,096 slots and as many entries, at most 64 classes,
    /// each with at most 8 fields, and at most 64 globals. The class numbers of fields and globals are not judged.
    pub fn new(
        slots: u32,
        entries: u32,
        caps: Caps,
        classes: Vec<ClassShape>,
        globals: Vec<RefShape>,
    ) -> Result<Shape, ShapeRefused>
        ensures slots { (result ≡ Err ShapeRefused.Slots) ↔ ¬ (SlotsFit slots) }
        ensures entries { (result ≡ Err ShapeRefused.Entries) ↔ (SlotsFit slots × ¬ (EntriesFit entries)) }
        ensures classes { (result ≡ Err ShapeRefused.Classes) ↔ (SlotsFit slots × EntriesFit entries × ¬ (ClassesFit classes.items)) }
        ensures fields { (result ≡ Err ShapeRefused.Fields) ↔ (SlotsFit slots × EntriesFit entries × ClassesFit classes.items × ¬ (FieldsFit classes.items)) }
        ensures globals { (result ≡ Err ShapeRefused.Globals) ↔ (SlotsFit slots × EntriesFit entries × ClassesFit classes.items × FieldsFit classes.items × ¬ (GlobalsFit globals.items)) }
        ensures ok { IfOk result (λ s. s ≡ record { slots = slots; entries = entries; caps = caps; classes = classes.items; globals = globals.items }) }
    {
        if slots < 1 || slots > 4096 {
            return Err(ShapeRefused::Slots);
        }
        if entries < 1 || entries > 4096 {
            return Err(ShapeRefused::Entries);
        }
        if classes.len() > 64 {
            return Err(ShapeRefused::Classes);
        }
        if !fields_fit(&classes) {
            return Err(ShapeRefused::Fields);
        }
        if globals.len() > 64 {
            return Err(ShapeRefused::Globals);
        }
        Ok(Shape {
            slots,
            entries,
            caps,
            classes,
            globals,
        })
    }

    /// The number of slots, 1 to 4,096.
    pub fn slots(&self) -> u32
        ensures value { result ≡ self.now.slots }
        ensures fits { ShapeFits self.now.slots self.now.entries self.now.classes self.now.globals }
    {
        self.slots
    }

    /// The number of side table entries, 1 to 4,096.
    pub fn entries(&self) -> u32
        ensures value { result ≡ self.now.entries }
        ensures fits { ShapeFits self.now.slots self.now.entries self.now.classes self.now.globals }
    {
        self.entries
    }

    /// The greatest counts.
    pub fn caps(&self) -> Caps
        ensures { result ≡ self.now.caps }
    {
        self.caps
    }

    /// The classes, in the order of declaration.
    pub fn classes(&self) -> &[ClassShape]
        ensures value { result.now ≡ self.now.classes }
        ensures fits { ShapeFits self.now.slots self.now.entries self.now.classes self.now.globals }
    {
        self.classes.as_slice()
    }

    /// The globals, in the order of declaration.
    pub fn globals(&self) -> &[RefShape]
        ensures value { result.now ≡ self.now.globals }
        ensures fits { ShapeFits self.now.slots self.now.entries self.now.classes self.now.globals }
    {
        self.globals.as_slice()
    }
    /// An equal shape. `Memory` where none was found.
    pub fn copy(&self, alloc: Global) -> Result<Shape, Memory>
        ensures equal { IfOk result (λ s. s ≡ self.now) }
    {
        let mut classes = Vec::new(alloc);
        for class in self.classes.iter() {
            classes.push(copied_class(alloc, class)?)?;
        }
        let mut globals = Vec::new(alloc);
        globals.extend_from_slice(self.globals.as_slice())?;
        Ok(Shape {
            slots: self.slots,
            entries: self.entries,
            caps: self.caps,
            classes,
            globals,
        })
    }
}

#[cfg(test)]
mod tests {
    use super::*;

    /// With ample memory a shape is made and copied.
    #[test]
    fn a_copy_is_found(rt: HostRuntime) -> Result<(), Memory> {
        let weak = RefShape {
            kind: Kind::Weak,
            class: 0,
        };
        let mut fields = Vec::new(rt.alloc());
        fields.push(weak)?;
        let mut classes = Vec::new(rt.alloc());
        classes.push(ClassShape {
            fields,
            immortal: true,
        })?;
        let mut globals = Vec::new(rt.alloc());
        globals.push(weak)?;
        let caps = Caps::new(1, 2, 3).map_err(|_| Memory)?;
        let shape = Shape::new(4, 5, caps, classes, globals).map_err(|_| Memory)?;
        let copy = shape.copy(rt.alloc())?;
        assert_eq!(rt; copy.slots(), 4);
        assert_eq!(rt; copy.entries(), 5);
        assert_eq!(rt; copy.caps().wide(), 3);
        assert_eq!(rt; copy.classes().len(), 1);
        for class in copy.classes() {
            assert!(rt; class.immortal);
        }
        assert_eq!(rt; copy.globals().len(), 1);
        Ok(())
    }
}
