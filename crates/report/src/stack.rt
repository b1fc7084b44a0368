// The lines of the elements that are open.
ghost use Rattle.std.specs.Prelude.{◌≡◌, [], ◌∷◌, ◌<◌, length};
ghost use Rattle.numbers.specs.Limit.{most_events};
ghost use Rattle.report.specs.Report.{innermost, outer};

use crate::lines::Line;
use numbers::limit;
use std::marker::Model;

// The innermost is the last.
#[derive(Drop)]
pub struct Stack {
    lines: [Line; limit::MOST_EVENTS],
    depth: usize,
}

impl Model for Stack {
    ghost use Rattle.std.specs.Prelude.{ℕ, List, ◌≤◌};
    ghost use Rattle.numbers.specs.Limit.{most_events};
    ghost use Rattle.report.specs.Sums.{stack_of};

    ghost Value = { List ℕ };

    ghost view = { λ s. stack_of s.lines s.depth };

    ghost invariant = { λ s. s.depth ≤ most_events };
}

impl Stack {
    #[tactic(auto, unfolding(crate::specs::Sums::stack_of))]
    pub fn new() -> Stack
        ensures { result ≡ [] }
    {
        Stack {
            lines: [Line::other(); limit::MOST_EVENTS],
            depth: 0,
        }
    }

    // The line of the innermost element; outside of every element, that of all other names.
    #[tactic(auto, unfolding(crate::specs::Report::innermost, crate::specs::Sums::stack_of))]
    pub fn top(&self) -> Line
        ensures { result ≡ innermost self.now }
    {
        if self.depth == 0 {
            return Line::other();
        }
        self.lines[self.depth - 1]
    }

    pub fn push(&mut self, line: Line)
        requires { length self.old < most_events }
        ensures { self.new ≡ line ∷ self.old }
    {
        self.lines[self.depth] = line;
        self.depth += 1;
    }

    #[tactic(auto, unfolding(crate::specs::Report::outer, crate::specs::Sums::stack_of))]
    pub fn pop(&mut self)
        ensures { self.new ≡ outer self.old }
    {
        self.depth = self.depth.saturating_sub(1);
    }
}
