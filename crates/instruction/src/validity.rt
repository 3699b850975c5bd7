// Refusals 1 and 3: which numbers of a record are known, which pairs of values are lawful, and what misses its value.
ghost use Rattle.std.specs.Prelude.{◌≡◌};
ghost use Rattle.instruction.specs.Records.{stepped, recognised, lawful, sound};
ghost use Rattle.instruction.specs.Quick.{regular, matched, misses, valued, fit};

use crate::forms::{is_stray, needs_value};
use crate::names::MODE_INC_DEC;
use crate::{Instruction, Operand, Values};
use postbytes::lists;

#[tactic(auto, unfolding(crate::specs::Records::stepped, ground::specs::Choice::pick))]
pub fn is_stepped(o: Operand) -> bool
    ensures { result ≡ stepped o }
{
    (o.step <= 4) & (!(o.mode == MODE_INC_DEC) | (0 < o.step))
}

// What 1 asks of an operand beside its operation.
#[tactic(auto, unfolding(crate::specs::Quick::regular, ground::specs::Choice::pick))]
fn is_regular(o: Operand) -> bool
    ensures { result ≡ regular o }
{
    let registers = o.registers;
    (o.mode < 8) & (!lists::strange(registers, o.count) & is_stepped(o))
}

#[tactic(auto, unfolding(crate::specs::Records::recognised, crate::specs::Quick::regular, ground::specs::Choice::pick))]
pub(crate) fn is_recognised(o: Operand) -> bool
    ensures { result ≡ recognised o }
{
    rows::known(o.operation) & is_regular(o)
}

// The two evaluations fit their widths, and agree as far as the narrower of them goes. Two of 16 bits fit, and need only be equal.
#[tactic(auto, unfolding(crate::specs::Quick::matched, values::specs::Widths::valid_of, values::specs::Widths::bits_of, crate::specs::Records::agreeing, crate::specs::Records::narrower, ground::specs::Choice::pick))]
fn is_matched(v: Values) -> bool
    ensures { result ≡ matched v }
{
    let u = v.unsigned;
    let s = v.signed;
    let wide = (u.width == 16) & (s.width == 16);
    if wide {
        return u.number == s.number;
    }
    u.valid() & (s.valid() & (u.number % 256 == s.number % 256))
}

#[tactic(auto, unfolding(crate::specs::Records::lawful, crate::specs::Quick::matched, ground::specs::Choice::pick))]
pub(crate) fn is_lawful(v: Values) -> bool
    ensures { result ≡ lawful v }
{
    if v.given {
        return is_matched(v);
    }
    true
}

#[tactic(auto, unfolding(crate::specs::Records::sound, ground::specs::Choice::pick))]
pub(crate) fn is_sound(i: Instruction, v: Values) -> bool
    ensures { result ≡ sound i v }
{
    let o = i.operand;
    is_recognised(o) & ((i.form < 7) & is_lawful(v))
}

#[tactic(auto, unfolding(crate::specs::Quick::misses, ground::specs::Choice::pick))]
pub(crate) fn is_missing(i: Instruction, v: Values) -> bool
    ensures { result ≡ misses i v }
{
    let o = i.operand;
    needs_value(o.mode, i.form) & !v.given
}

// What 1 asks of the values where there are some, and 3 where there are none.
#[tactic(auto, unfolding(crate::specs::Quick::valued, ground::specs::Choice::pick))]
fn is_valued(i: Instruction, v: Values) -> bool
    ensures { result ≡ valued i v }
{
    if v.given {
        return is_matched(v);
    }
    let o = i.operand;
    !needs_value(o.mode, i.form)
}

// All that 1, 2 and 3 ask but for what a row tells, that the operation is known and has the form.
#[tactic(auto, unfolding(crate::specs::Quick::fit, ground::specs::Choice::pick))]
pub(crate) fn is_fit(i: Instruction, v: Values) -> bool
    ensures { result ≡ fit i v }
{
    let o = i.operand;
    is_regular(o) & ((i.form < 7) & (is_valued(i, v) & !is_stray(o.mode, i.form)))
}
