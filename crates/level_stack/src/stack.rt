// The stack and its calls.
ghost use Rattle.std.specs.Prelude.{◌≡◌, ℕ, ◌≤◌, length, ◌==◌};

use crate::StackFault;

// The levels pushed stand in the first places, the first pushed first; `used` counts them.
// The caller lends the places, which are fixed: nothing here allocates.
#[derive(Drop)]
pub struct LevelStack<'a, L> {
    places: &'a mut [L],
    used: usize,
    ghost within: { used ≤ length places.now },
}

impl<'a, L: Copy> LevelStack<'a, L> {
    ghost use Rattle.level_stack.specs.Stacks.{levels_of, SamePlaces, Pushes, Last, Pops};

    // The empty stack over the places, whatever they hold.
    pub fn over(places: &'a mut [L]) -> Self
        ensures empty { result.used ≡ 0 }
        ensures places { result.places.now ≡ places.old }
        ensures lent { result.places.ghost_name ≡ places.entry.ghost_name }
    {
        LevelStack { places, used: 0 }
    }

    // How many places are used.
    pub fn used(&self) -> usize
        ensures { result ≡ self.now.used }
    {
        self.used
    }

    // Whether every place is used.
    pub fn is_full(&self) -> bool
        ensures { result ≡ (self.now.used == length self.now.places.now) }
    {
        self.used == self.places.len()
    }

    // The levels held, the first pushed first.
    pub fn levels(&self) -> &[L]
        ensures { result.now ≡ levels_of self.now }
    {
        &self.places[..self.used]
    }

    // The level pushed last, or none.
    pub fn last(&self) -> Option<L>
        ensures { Last self.now.places.now self.now.used result }
    {
        self.levels().last().copied()
    }

    // Puts the level on the stack. That the places stay those lent is a fact of the loan, which each call says.
    pub fn push(&mut self, level: L) -> Result<(), StackFault>
        ensures pushes { Pushes self.old level result self.new }
        ensures lent { SamePlaces self.old self.new }
    {
        if self.is_full() {
            return Err(StackFault::Full);
        }
        self.places[self.used] = level;
        self.used += 1;
        Ok(())
    }

    // Takes the level pushed last off the stack.
    pub fn pop(&mut self) -> Result<L, StackFault>
        ensures pops { Pops self.old result self.new }
        ensures lent { SamePlaces self.old self.new }
    {
        let level = self.last().ok_or(StackFault::Empty)?;
        self.used -= 1;
        Ok(level)
    }
}
