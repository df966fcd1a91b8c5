//! The parameters of a function's head (C11 6.7.6.3, 6.9.1).

ghost use Rattle.std.specs.Prelude.{◌≡◌, codes};
ghost use Rattle.c_reader.specs.Outcome.{Gives};
ghost use Rattle.c_reader.specs.Reading as reading;
ghost use Rattle.c_reader.specs.Tokens.{read_mark};
ghost use Rattle.c_decl.specs.Parameters as spec;

use crate::bare::void_of;
use crate::rules::Rules;
use c_expr::specs;
use c_reader::{Cursor, Unread, is_mark, many_after, only};
use c_tree::{Parameter, Parameters, Specifiers};

impl Rules {
    /// A parameter of a type: `pointer NAME bounds`
    #[tactic(auto, unfolding(crate::specs::Parameters::read_parameter_of))]
    fn parameter_of(self, cursor: &mut Cursor<'_>, specs: Specifiers) -> Result<Parameter, Unread>
        ensures { Gives (spec.read_parameter_of self.size self.left specs cursor.old) result cursor.new }
    {
        let pointer = self.pointer(cursor)?;
        let name = cursor.name(self.alloc, self.left)?;
        let dimensions = self.bounds(cursor)?;
        Ok(Parameter {
            specs,
            pointer,
            name,
            dimensions,
        })
    }

    /// `specs pointer NAME bounds`
    #[tactic(auto, unfolding(crate::specs::Parameters::read_parameter))]
    fn parameter(self, cursor: &mut Cursor<'_>) -> Result<Parameter, Unread>
        ensures { Gives (spec.read_parameter self.size self.left cursor.old) result cursor.new }
    {
        let specs = specs(self.alloc, cursor, self.size, self.left)?;
        self.parameter_of(cursor, specs)
    }

    /// `"," parameter`
    fn next_parameter(self, cursor: &mut Cursor<'_>) -> Result<Parameter, Unread>
        ensures { Gives (reading.after (read_mark (codes ",") self.left cursor.old) (λ comma. spec.read_parameter self.size self.left)) result cursor.new }
    {
        cursor.mark(",", self.left)?;
        self.parameter(cursor)
    }

    /// The parameters of which the first has this type.
    #[tactic(auto, unfolding(crate::specs::Parameters::read_parameters_of))]
    fn parameters_of(self, cursor: &mut Cursor<'_>, specs: Specifiers) -> Result<Parameters, Unread>
        ensures { Gives (spec.read_parameters_of self.size self.left specs cursor.old) result cursor.new }
    {
        let first = only(self.alloc, self.parameter_of(cursor, specs)?)?;
        let parameters = many_after(
            cursor,
            self.size,
            |token| is_mark(",", token),
            |cursor| self.next_parameter(cursor),
            first,
        )?;
        Ok(Parameters::List(parameters))
    }

    /// What stands between the brackets of a head: `["void" | parameter ("," parameter)*]`
    #[tactic(auto, using(c_reader::proofs::Gathering::choose_sees), unfolding(crate::specs::Parameters::read_parameters))]
    pub fn parameters(self, cursor: &mut Cursor<'_>) -> Result<Parameters, Unread>
        ensures { Gives (spec.read_parameters self.size self.left cursor.old) result cursor.new }
    {
        if cursor.sees_mark(")") {
            return Ok(Parameters::Nothing);
        }
        let specs = specs(self.alloc, cursor, self.size, self.left)?;
        match void_of(&specs) {
            Some(place) if cursor.sees_mark(")") => Ok(Parameters::Void(place)),
            _ => self.parameters_of(cursor, specs),
        }
    }
}
