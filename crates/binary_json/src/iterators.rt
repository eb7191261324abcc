//! Iterators over arrays and objects.
use crate::containers::{Array, Object};
use crate::value::Value;

/// The values of an array that are left, in order.
#[derive(Clone, Copy, Debug)]
pub struct Elements<'a> {
    pub(crate) array: Array<'a>,
    pub(crate) index: usize,
}

/// The keys and the values of an object that are left, in order.
#[derive(Clone, Copy, Debug)]
pub struct Members<'a> {
    pub(crate) object: Object<'a>,
    pub(crate) index: usize,
}

impl<'a> Iterator for Elements<'a> {
    type Item = Value<'a>;

    ghost use Rattle.std.specs.Iterator.{YieldsFirstBy, item_count};
    ghost use Rattle.binary_json.specs.Views.{json};
    ghost use Rattle.binary_json.specs.Iterators.{elements_left};

    ghost next_gives = { YieldsFirstBy json elements_left };

    ghost remaining = { item_count elements_left };

    #[tactic(auto, using(crate::proofs::Left::nothing_left))]
    fn next(&mut self) -> Option<Value<'a>> {
        if self.index >= self.array.len() {
            return None;
        }
        let value = self.array.get(self.index);
        self.index += 1;
        value
    }
}

impl<'a> Iterator for Members<'a> {
    type Item = (&'a [u8], Value<'a>);

    ghost use Rattle.std.specs.Iterator.{YieldsFirstBy, item_count};
    ghost use Rattle.binary_json.specs.Iterators.{members_left, member_of};

    ghost next_gives = { YieldsFirstBy member_of members_left };

    ghost remaining = { item_count members_left };

    #[tactic(auto, using(crate::proofs::Left::nothing_left))]
    fn next(&mut self) -> Option<(&'a [u8], Value<'a>)> {
        if self.index >= self.object.len() {
            return None;
        }
        let member = self.object.get_entry(self.index);
        self.index += 1;
        member
    }
}

impl<'a> Array<'a> {
    ghost use Rattle.std.specs.Prelude.{◌≡◌};
    ghost use Rattle.binary_json.specs.Views.{elements};
    ghost use Rattle.binary_json.specs.Iterators.{elements_left};

    /// Its values, in order.
    pub fn iter(&self) -> Elements<'a>
        ensures { elements_left result ≡ elements self.now }
    {
        Elements {
            array: *self,
            index: 0,
        }
    }
}

impl<'a> Object<'a> {
    ghost use Rattle.std.specs.Prelude.{◌≡◌};
    ghost use Rattle.binary_json.specs.Views.{members};
    ghost use Rattle.binary_json.specs.Iterators.{members_left};

    /// Its keys and values, in order.
    pub fn iter(&self) -> Members<'a>
        ensures { members_left result ≡ members self.now }
    {
        Members {
            object: *self,
            index: 0,
        }
    }
}
