ghost use Rattle.std.specs.Prelude.{◌≡◌, ℕ, List, [], ◌∷◌, ◌++◌};
ghost use Rattle.iop_ready.specs.declared.entry.Entry.{Entry};
ghost use Rattle.iop_ready.specs.ReadyList.{entry_of, HasNot, IsReadyList, is_listed, slot_at, without, rotated, best_slot};

use crate::priority::Priority;
use crate::slot::Slot;

/// The threads that are ready to run, in order of their arrival. Best is the first among those of
/// the least priority number.
pub trait Ready {
    /// It stands for the list: each priority has the same threads in the same order.
    ghost stands: { Self → List Entry → Type 0 };

    /// Puts a thread behind all others. It is not in the list.
    fn add_last(&mut self, slot: Slot, priority: Priority)
        requires { (xs : List Entry) × stands self.old xs × HasNot slot xs }
        ensures { (xs : List Entry)
            → stands self.old xs
            → stands self.new (xs ++ entry_of slot priority ∷ []) };

    /// Puts a thread in front of all others. It is not in the list.
    fn add_first(&mut self, slot: Slot, priority: Priority)
        requires { (xs : List Entry) × stands self.old xs × HasNot slot xs }
        ensures { (xs : List Entry)
            → stands self.old xs
            → stands self.new (entry_of slot priority ∷ xs) };

    /// Takes a thread out, if it is there.
    fn remove(&mut self, slot: Slot)
        ensures { (xs : List Entry) → stands self.old xs → stands self.new (without slot xs) };

    /// Moves the first thread of a priority behind all others, if there is one.
    fn rotate(&mut self, priority: Priority)
        ensures { (xs : List Entry) → stands self.old xs → stands self.new (rotated priority xs) };

    /// Says whether a thread is in the list.
    fn contains(&self, slot: Slot) -> bool
        ensures { (xs : List Entry) → stands self.now xs → result ≡ is_listed slot xs };

    /// Finds the slot of the thread at a place among those of a priority, in order of arrival. None
    /// exactly where so many or fewer of the priority are ready.
    fn at(&self, priority: Priority, place: usize) -> Option<Slot>
        ensures { (xs : List Entry) → stands self.now xs → result ≡ slot_at priority place xs };

    /// Finds the slot of the first thread of the best priority. None exactly where none is ready.
    fn best(&self) -> Option<Slot>
        ensures { (xs : List Entry) → stands self.now xs → result ≡ best_slot xs };

    /// Each thread of the list has a slot and a priority that can be, and no two have one slot.
    ghost stands_sound: { (ready : Self) (xs : List Entry) → stands ready xs → IsReadyList xs };
}
