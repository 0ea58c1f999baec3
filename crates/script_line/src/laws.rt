//! What the grammar of scripts means, as laws above it. Each function does nothing: its contract is the law.

ghost use Rattle.std.specs.Prelude.{◌≡◌, ℕ, ◌↔◌, List, Some};
ghost use Rattle.script_line.specs.Line.{Said};
ghost use Rattle.script_line.specs.Grammar.{Says, line_of};

/// A line of a script says one thing at most.
pub fn a_line_says_one_thing()
    ensures { (line : List ℕ) (said other : Said) → Says line said → Says line other → said ≡ other }
{}

/// What is read of a line is what it says in the words of the grammar.
pub fn what_is_read_is_what_is_said()
    ensures { (line : List ℕ) (said : Said) → (line_of line ≡ Some said) ↔ Says line said }
{}
