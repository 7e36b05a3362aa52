// A good table with its reading, and each of its rules with where its parts lie.
ghost use Rattle.std.specs.Prelude.{◌≡◌, ◌<◌, get_or};
ghost use Rattle.model.specs.Reading.{no_shape};
ghost use Rattle.rule_weights.specs.Views.{Known, Lies, Lies-prop};

use model::{Reading, RuleShape};

#[derive(Clone, Copy)]
pub struct GoodTable<'a> {
    pub bytes: &'a [u8],
    pub reading: &'a Reading,
    pub ghost known: { Known bytes.now reading.now },
}

// A rule whose parts lie in a table's bytes, and are few.
#[derive(Clone, Copy)]
pub struct TableRule<'a> {
    pub bytes: &'a [u8],
    pub shape: RuleShape,
    pub ghost lies: { Lies bytes.now shape } by { Lies-prop bytes.now shape },
}

impl<'a> GoodTable<'a> {
    pub fn rule(&self, number: u8) -> TableRule<'a>
        requires { number < self.now.reading.now.rules }
        ensures bytes { result.bytes.now ≡ self.now.bytes.now }
        ensures shape { result.shape ≡ get_or self.now.reading.now.shapes number no_shape }
    {
        TableRule {
            bytes: self.bytes,
            shape: self.reading.shapes[usize::from(number)],
        }
    }
}
