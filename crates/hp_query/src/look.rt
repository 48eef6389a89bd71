//! What a query reads.

ghost use Rattle.std.specs.Prelude.{◌≡◌, ℕ, ℤ, ⊤, length, Ok, None, IfOk, IfSome};
ghost use Rattle.std.specs.List.{last_or};
ghost use Rattle.hp_model.specs.State.{Objects, find_object, rows_of, class_keys};
ghost use Rattle.hp_model.specs.ClassParts as parts;
ghost use Rattle.hp_model.specs.ClassParts.{picked};
ghost use Rattle.hp_value.specs.Mapped.{class_part};
ghost use Rattle.hp_query.specs.Looks.{ObjectsRise};
ghost use Rattle.hp_query.specs.Mapped.{keyed_rows};

use hp_value::{ClassNo, ClassPart, Key, KeyedRow, ObjectList, Row};
use std::alloc::{AllocError, Global};
use std::sync::Arc;

/// Read access to objects.
///
/// A *world* is a list of objects. What a look has shown may hold in several worlds: a view that records its reads
/// shows what holds wherever these reads hold. `allows` names the worlds in which all answers so far hold, and each
/// call's answer holds in all worlds that are allowed after it. Each call may leave fewer worlds, even one that runs
/// out of memory.
///
/// The contracts speak only of worlds whose objects stand in order (`ObjectsRise`).
pub trait Look {
    ghost allows: { Self → Objects → Type 0 };

    // what a call may do to the look; for a view: its writes stay the same
    ghost goes_on: { Self → Self → Type 0 };

    // what a question about a class may do to the look; for a view: it reads nothing of another class
    ghost asks: { ℕ → Self → Self → Type 0 };

    // what a question about the object with a key may do to the look; for a view: it reads that object alone
    ghost asks_row: { ℕ → ℤ → Self → Self → Type 0 };

    // what a question about a part of a class may do to the look; for a view: it reads that part alone
    ghost asks_part: { ℕ → parts.ClassPart → Self → Self → Type 0 };

    // what the question how many objects a class has may do to the look, which is anything if the look doesn't say; for
    // a view: it reads this number, or the keys
    ghost asks_count: { ℕ → Self → Self → Type 0 } = { λ class before after. ⊤ };

    // what the question for a class's greatest key may do to the look, likewise; for a view: it reads this key, or the
    // keys
    ghost asks_greatest: { ℕ → Self → Self → Type 0 } = { λ class before after. ⊤ };

    /// The row of the object with this key in this class, or `None` if there is no such object.
    fn row(&mut self, alloc: Global, class: ClassNo, key: Key) -> Result<Option<Row>, AllocError>
        ensures goes_on { goes_on self.old self.new }
        ensures asks { asks class self.old self.new }
        ensures asks_row { asks_row class key self.old self.new }
        ensures found { IfOk result (λ found. (world : Objects) →
            ObjectsRise world → allows self.new world → found ≡ find_object world class key) };

    /// The keys of a class's objects, in ascending order.
    fn keys(&mut self, alloc: Global, class: ClassNo) -> Result<Vec<Key>, AllocError>
        ensures goes_on { goes_on self.old self.new }
        ensures asks { asks class self.old self.new }
        ensures listed { IfOk result (λ keys. (world : Objects) →
            ObjectsRise world → allows self.new world → keys.items ≡ class_keys class world) };

    /// The number of a class's objects.
    fn count(&mut self, alloc: Global, class: ClassNo) -> Result<usize, AllocError>
        ensures goes_on { goes_on self.old self.new }
        ensures asks { asks class self.old self.new }
        ensures asks_count { asks_count class self.old self.new }
        ensures counted { IfOk result (λ n. (world : Objects) →
            ObjectsRise world → allows self.new world → n ≡ length (class_keys class world)) };

    /// The greatest key of a class's objects; `None` if the class has none.
    fn greatest_key(&mut self, alloc: Global, class: ClassNo) -> Result<Option<Key>, AllocError>
        ensures goes_on { goes_on self.old self.new }
        ensures asks { asks class self.old self.new }
        ensures asks_greatest { asks_greatest class self.old self.new }
        ensures found { IfOk result (λ found. (world : Objects) →
            ObjectsRise world → allows self.new world → found ≡ last_or None (class_keys class world)) };

    /// All objects of a class with their rows, in ascending key order, if the look keeps such a list. The list is
    /// shared. `None` if the objects have to be read one by one.
    fn objects(
        &mut self,
        alloc: Global,
        class: ClassNo,
    ) -> Result<Option<Arc<ObjectList>>, AllocError>
        ensures goes_on { goes_on self.old self.new }
        ensures asks { asks class self.old self.new }
        ensures listed { IfOk result (λ found. IfSome found (λ objects. (world : Objects) →
            ObjectsRise world → allows self.new world → objects.value ≡ rows_of class world)) };

    /// The objects of a part of a class with their rows, in ascending key order, if the look finds them without reading
    /// the others and knows that no other object is in the part. `None` if it can't.
    fn part(
        &mut self,
        alloc: Global,
        class: ClassNo,
        part: &ClassPart<'_>,
    ) -> Result<Option<Vec<KeyedRow>>, AllocError>
        ensures goes_on { goes_on self.old self.new }
        ensures asks { asks class self.old self.new }
        ensures asks_part { asks_part class (class_part part.now) self.old self.new }
        ensures listed { IfOk result (λ found. IfSome found (λ objects. (world : Objects) →
            ObjectsRise world → allows self.new world →
            picked (class_part part.now) (rows_of class world) ≡ Ok (keyed_rows objects))) };

    /// The least key of a class's objects from a lower bound on, as the look sees it now. `None` if there is none, or
    /// if the look doesn't know. This is a hint of where to ask, and no answer: no read is recorded, and nothing
    /// depends on it.
    fn likely_least(&self, class: ClassNo, low: Option<Key>) -> Option<Key>;

    /// The greatest key of a class's objects up to an upper bound, in the same way.
    fn likely_greatest(&self, class: ClassNo, high: Option<Key>) -> Option<Key>;

    ghost goes_on_same: { (look : Self) → goes_on look look };

    ghost goes_on_then: { (first second third : Self) → goes_on first second → goes_on second third →
        goes_on first third };

    ghost asks_same: { (class : ℕ) → (look : Self) → asks class look look };

    ghost asks_then: { (class : ℕ) → (first second third : Self) → asks class first second →
        asks class second third → asks class first third };

    ghost asks_row_same: { (class : ℕ) → (key : ℤ) → (look : Self) → asks_row class key look look };

    // a later state of the look allows no world that an earlier one didn't
    ghost narrows: { (first second : Self) → goes_on first second → (world : Objects) → allows second world →
        allows first world };
}
