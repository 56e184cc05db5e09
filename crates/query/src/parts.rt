ghost use Rattle.std.specs.Prelude.{◌≡◌, ◌≤◌};
ghost use Rattle.query.specs.Readings.{Atomed, Claused, Enclosed, Headed, Named};

use super::cursor::Reader;
use super::drafts::{Atom, Draft, Head, sealed};
use super::texts::excess;
use automata::{Builder, Part, Symbol};

impl Reader<'_> {
    // A variable: a capital letter.
    fn name(&mut self) -> Result<u8, usize>
        ensures { Named self.old self.new result }
    {
        let Some(c) = self.peek() else {
            return Err(self.at);
        };
        match c {
            'A'..='Z' => {
                self.at += 1;
                Ok(c as u8)
            }
            _ => Err(self.at),
        }
    }

    // What stands in square brackets, with the closing one; nothing means a dot.
    fn inside(&mut self, out: &mut Builder) -> Result<Part, usize>
        requires { out.old.count ≤ self.old.at }
        ensures { Enclosed self.old self.new out.old out.new result }
    {
        if self.eat(']') {
            return Ok(out.add(Symbol::Any));
        }
        let part = self.alternative(out)?;
        if self.eat(']') {
            Ok(part)
        } else {
            Err(self.at)
        }
    }

    // An atom: a variable, square brackets, and a variable.
    fn atom(&mut self) -> Result<Atom, usize>
        ensures { Atomed self.old self.new result }
    {
        let place = self.at;
        let first = self.name()?;
        if !self.eat('[') {
            return Err(self.at);
        }
        let mut out = Builder::new();
        let part = self.inside(&mut out)?;
        let second = self.name()?;
        Ok(sealed(first, second, place, out, part))
    }

    // The head and its colon.
    pub(crate) fn head(&mut self) -> Result<Head, usize>
        requires { self.old.at ≡ 0 }
        ensures { Headed self.old self.new result }
    {
        let first = self.name()?;
        let mut out = Head {
            names: [0; 26],
            count: 0,
        };
        out.push(first);
        while !self.eat(':') {
            let more = self.name()?;
            out.push(more);
        }
        Ok(out)
    }

    // An atom, put behind those of the draft.
    pub(crate) fn clause(&mut self, out: &mut Draft) -> Result<(), usize>
        requires { out.old.count ≤ self.old.at }
        ensures { Claused self.old self.new out.old out.new result }
    {
        let start = self.at;
        let atom = self.atom()?;
        let over = excess(self.text, start, out.count, atom.automaton.size);
        out.push(atom, over);
        Ok(())
    }
}
