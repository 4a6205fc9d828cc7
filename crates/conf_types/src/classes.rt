//! The classes of rules, as the `config classification` lines name them.
ghost use Rattle.std.specs.Prelude.{◌≡◌, ◌<◌, ◌≤◌, [], ◌∷◌, ◌++◌, length, slice_get, option_map, Some, IfOk, IfSome};
ghost use Rattle.conf_types.specs.Classes.{class_place};

use edge_io::{NoMemory, Text};
use std::alloc::Global;
use std::marker::Model;

/// Classes that a configuration may have.
pub const MOST_CLASSES: usize = 1024;

/// A class of rules (Snort Users Manual 2.9, section 3.4.6).
#[derive(Debug, Drop)]
pub struct Class {
    pub name: Text,
    /// What its alerts say.
    pub text: Text,
    /// 1 to 2147483647; 1 is the most urgent.
    pub priority: u32,
}

/// Classes in order, at most 1024. Contracts see the list of them.
#[derive(Debug, Drop)]
pub struct Classes {
    classes: Vec<Class>,
}

impl Model for Classes {
    ghost use Rattle.std.specs.Prelude.{List, length, ◌≤◌};
    ghost use Rattle.conf_types.specs.declared.classes.Class.{Class};

    ghost Value = { List Class };

    ghost view = { λ classes. classes.classes.items };

    ghost invariant = { λ classes. length classes.classes.items ≤ 1024 };
}

impl Classes {
    /// No classes. Takes no memory.
    pub fn new(alloc: Global) -> Classes
        ensures { result ≡ [] }
    {
        Classes {
            classes: Vec::new(alloc),
        }
    }

    /// How many there are.
    pub fn len(&self) -> usize
        ensures len { result ≡ length self.now }
        ensures within { length self.now ≤ 1024 }
    {
        self.classes.len()
    }

    /// The place of the class of this name. Takes no memory.
    pub fn find(&self, name: &[u8]) -> Option<u32>
        ensures { result ≡ class_place self.now name.now }
    {
        match self.place_of(name) {
            Some(place) => Some(place as u32),
            None => None,
        }
    }

    /// The place of the class of this name as a place in memory.
    fn place_of(&self, name: &[u8]) -> Option<usize>
        ensures place { result ≡ class_place self.now name.now }
        ensures within { IfSome result (λ place. place < 1024) }
    {
        self.classes
            .iter()
            .position(|class| class.name.bytes() == name)
    }

    /// The text of a class that is there. Takes no memory.
    pub fn text(&self, class: u32) -> &[u8]
        requires { class < length self.now }
        ensures { option_map (λ c. c.text) (slice_get self.now class) ≡ Some result.now }
    {
        self.classes[class as usize].text.bytes()
    }

    /// The priority of a class that is there. Takes no memory.
    pub fn priority(&self, class: u32) -> u32
        requires { class < length self.now }
        ensures { option_map (λ c. c.priority) (slice_get self.now class) ≡ Some result }
    {
        self.classes[class as usize].priority
    }

    /// The classes with one more, after the last.
    pub fn with_class(self, class: Class) -> Result<Classes, NoMemory>
        requires { length self < 1024 }
        ensures { IfOk result (λ classes. classes ≡ self ++ class ∷ []) }
    {
        let Classes { mut classes } = self;
        classes.push(class)?;
        Ok(Classes { classes })
    }
}
