//! A shelf over contents in memory, for tests.

ghost use Rattle.std.specs.Prelude.{◌≡◌, ◌≢◌, ◌<◌, ◌↔◌, ◌⊎◌, ℕ, List, length, None, Some, Err, IfOk, IsErrOf, Contains, bytes_eq, string_bytes, vec_items, map, option_map};
ghost use Rattle.mos_bytes.specs.Causes.{HasCauseOf, risen};
ghost use Rattle.mos_bytes.specs.Fetches.{IsContentWithin, IsLonger, content_of};
ghost use Rattle.mos_bytes.specs.Memory.{ShelfState, shelf_content};

use crate::{FetchError, Shelf};
use std::alloc::Global;
use std::marker::Model;

/// A shelf that gives contents from memory, and fails at the listed calls.
#[derive(Drop)]
pub struct MemShelf {
    names: Vec<String>,
    contents: Vec<Vec<u8>>,
    fails: Vec<u64>,
    calls: u64,
    faults: u64,
}

impl Model for MemShelf {
    ghost Value = { ShelfState };

    ghost view = { λ s. record {
      names = map string_bytes s.names.items;
      contents = map vec_items s.contents.items;
      fails = s.fails.items;
      calls = s.calls;
      faults = s.faults;
    } };
}

impl MemShelf {
    /// A shelf that has each content under the name at its place, whose calls fail that `fails` lists by their numbers
    /// from 0. Of equal names the first counts, and what has no partner in the other list counts for nothing. It takes
    /// no memory.
    pub fn new(names: Vec<String>, contents: Vec<Vec<u8>>, fails: Vec<u64>) -> Self
        ensures { result ≡ record {
          names = map string_bytes names.items;
          contents = map vec_items contents.items;
          fails = fails.items;
          calls = 0;
          faults = 0;
        } }
    {
        MemShelf {
            names,
            contents,
            fails,
            calls: 0,
            faults: 0,
        }
    }
}

fn is(own: &String, name: &str) -> bool
    ensures { result ≡ bytes_eq (string_bytes own.now) name.now }
{
    own.as_bytes() == name.as_bytes()
}

// The content beside the first name that is this one.
fn find<'a>(names: &[String], contents: &'a [Vec<u8>], name: &str) -> Option<&'a [u8]>
    ensures { option_map (λ content. content.now) result
        ≡ content_of (map string_bytes names.now) (map vec_items contents.now) name.now }
{
    for index in 0..names.len().min(contents.len()) {
        if is(&names[index], name) {
            return Some(contents[index].as_slice());
        }
    }
    None
}

impl Shelf for MemShelf {
    ghost content = { shelf_content };

    ghost faults = { λ s. s.faults };

    // The calls that are to fail.
    ghost Lasting = { List ℕ };

    ghost lasting = { λ s. s.fails };

    /// Gives the content of this name. A listed call fails, and so does one with a name that the shelf doesn't hold.
    fn fetch(&mut self, alloc: Global, name: &str, limit: usize) -> Result<Vec<u8>, FetchError>
        ensures whole { IfOk result (λ bytes. IsContentWithin limit (shelf_content self.old name.now) bytes.items) }
        ensures too_long { result ≡ Err FetchError.TooLong → IsLonger (shelf_content self.old name.now) limit }
        ensures kept { (other : List ℕ) → shelf_content self.new other ≡ shelf_content self.old other }
        ensures names { self.new.names ≡ self.old.names }
        ensures contents { self.new.contents ≡ self.old.contents }
        ensures cause { HasCauseOf self.old.faults self.new.faults (IsErrOf result FetchError.Failed) }
        ensures failed { result ≡ Err FetchError.Failed
            ↔ (Contains self.old.fails self.old.calls ⊎ (shelf_content self.old name.now ≡ None)) }
        ensures longer { (content : List ℕ) → shelf_content self.old name.now ≡ Some content
            → limit < length content → ¬ Contains self.old.fails self.old.calls → result ≡ Err FetchError.TooLong }
        ensures one_fault { result ≡ Err FetchError.Failed → self.new.faults ≡ risen self.old.faults }
        ensures no_fault { result ≢ Err FetchError.Failed → self.new.faults ≡ self.old.faults }
        ensures calls { self.new.calls ≡ risen self.old.calls }
        ensures lasts { self.new.fails ≡ self.old.fails }
    {
        let call = self.calls;
        self.calls = call.saturating_add(1);
        if self.fails.contains(&call) {
            self.faults = self.faults.saturating_add(1);
            return Err(FetchError::Failed);
        }
        let Some(content) = find(&self.names, &self.contents, name) else {
            self.faults = self.faults.saturating_add(1);
            return Err(FetchError::Failed);
        };
        if content.len() > limit {
            return Err(FetchError::TooLong);
        }
        Ok(content.to_vec(alloc)?)
    }
}
