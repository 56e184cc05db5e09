ghost use Rattle.std.specs.Prelude.{◌≡◌, ◌+◌, ◌<◌, ◌≤◌, [], ◌∷◌, length, drop, MatchOption};
ghost use Rattle.query.specs.Grammar.{Layer};
ghost use Rattle.query.specs.Outcome.{Ahead, Eats, Outcome};

use super::cursor::Reader;
use automata::{Builder, Part, Symbol, either, optional};

impl Reader<'_> {
    // The character at the place, or none at the end.
    pub(crate) fn peek(&self) -> Option<char>
        ensures end { MatchOption result (length self.now.text.now ≤ self.now.at) (λ c. self.now.at < length self.now.text.now) }
        ensures rest { MatchOption result (drop self.now.at self.now.text.now ≡ []) (λ c. drop self.now.at self.now.text.now ≡ c ∷ drop (self.now.at + 1) self.now.text.now) }
    {
        let byte = self.text.get(self.at)?;
        Some(char::from(*byte))
    }

    // Goes over the character c if it comes next.
    pub(crate) fn eat(&mut self, c: char) -> bool
        ensures { Eats c self.old self.new result }
    {
        if self.peek() == Some(c) {
            self.at += 1;
            true
        } else {
            false
        }
    }

    // An alternative: sequences joined by |. The builder is no part of the reader, since each expression begins a new one; so what each of the
    // functions asks of the two stays in its contract.
    #[cycle(alternative_sequence_step_unit)]
    pub(crate) fn alternative(&mut self, out: &mut Builder) -> Result<Part, usize>
        requires { out.old.count ≤ self.old.at + 1 }
        ensures { Outcome Layer.alternative self.old self.new out.old out.new result }
    {
        let mut part = self.sequence(out)?;
        while self.eat('|') {
            let more = self.sequence(out)?;
            part = either(part, more);
        }
        Ok(part)
    }

    // A sequence: steps joined by /. Not one function with `alternative`: that would call itself through the closure that it is handed.
    #[cycle(alternative_sequence_step_unit)]
    fn sequence(&mut self, out: &mut Builder) -> Result<Part, usize>
        requires { out.old.count ≤ self.old.at + 1 }
        ensures { Outcome Layer.sequence self.old self.new out.old out.new result }
    {
        let mut part = self.step(out)?;
        while self.eat('/') {
            let more = self.step(out)?;
            part = out.join(part, more);
        }
        Ok(part)
    }

    // A step: a unit and then any number of the signs * + ?.
    #[cycle(alternative_sequence_step_unit)]
    fn step(&mut self, out: &mut Builder) -> Result<Part, usize>
        requires { out.old.count ≤ self.old.at + 1 }
        ensures { Outcome Layer.step self.old self.new out.old out.new result }
    {
        let unit = self.unit(out)?;
        Ok(self.signs(out, unit))
    }

    // A unit: a small letter, a dot, or an alternative in round brackets.
    #[cycle(alternative_sequence_step_unit)]
    fn unit(&mut self, out: &mut Builder) -> Result<Part, usize>
        requires { out.old.count ≤ self.old.at + 1 }
        ensures { Outcome Layer.unit self.old self.new out.old out.new result }
    {
        let Some(c) = self.peek() else {
            return Err(self.at);
        };
        match c {
            'a'..='z' => {
                self.at += 1;
                Ok(out.add(Symbol::Label(c as u8 - b'a')))
            }
            '.' => {
                self.at += 1;
                Ok(out.add(Symbol::Any))
            }
            '(' => {
                self.at += 1;
                let part = self.alternative(out)?;
                if self.eat(')') {
                    Ok(part)
                } else {
                    Err(self.at)
                }
            }
            _ => Err(self.at),
        }
    }

    // Any number of the signs * + ?.
    fn signs(&mut self, out: &mut Builder, unit: Part) -> Part
        requires { out.old.count ≤ self.old.at + 1 }
        ensures { Ahead Layer.step Layer.step self.old self.new out.old out.new unit result }
    {
        let mut part = unit;
        while let Some(c) = self.peek() {
            match c {
                '*' => part = out.star(part),
                '+' => part = out.plus(part),
                '?' => part = optional(part),
                _ => break,
            }
            self.at += 1;
        }
        part
    }
}
