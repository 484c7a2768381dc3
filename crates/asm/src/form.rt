//! Which arguments each mnemonic takes.
ghost use Rattle.std.specs.Prelude.{◌≡◌};
ghost use Rattle.asm.specs.Grammar.{is_signed as is_signed_number, is_register as is_register_argument, is_unsigned as is_unsigned_argument, is_number as is_number_argument, is_offset as is_offset_argument, is_memory as is_memory_argument, is_of as is_of_class, form_of as form_of_mnemonic, takes as takes_arguments, is_formed as is_formed_statement};

use disasm::{Argument, Arguments, Mnemonic, Sign, Statement};

/// A class of arguments.
#[derive(Clone, Copy, Debug, PartialEq, Eq)]
pub enum Class {
    /// A register.
    Register,
    /// A register or a number.
    Source,
    /// Digits, or a minus and digits.
    Number,
    /// Digits alone.
    Unsigned,
    /// A sign and digits.
    Offset,
    /// A register and an offset, in brackets.
    Memory,
}

/// The classes of the arguments that a mnemonic takes.
#[derive(Clone, Copy, Debug, PartialEq, Eq)]
pub enum Form {
    Zero,
    One(Class),
    Two(Class, Class),
    Three(Class, Class, Class),
}

/// Whether a number of this magnitude may be written with this sign: `-0` is no number.
fn is_signed(sign: Sign, magnitude: u128) -> bool
    ensures { result ≡ is_signed_number sign magnitude }
{
    match sign {
        Sign::Plus => true,
        Sign::Minus => magnitude != 0,
    }
}

fn is_register(argument: &Argument) -> bool
    ensures { result ≡ is_register_argument argument.now }
{
    matches!(argument, Argument::Register(_))
}

fn is_unsigned(argument: &Argument) -> bool
    ensures { result ≡ is_unsigned_argument argument.now }
{
    matches!(argument, Argument::Number(_))
}

fn is_number(argument: &Argument) -> bool
    ensures { result ≡ is_number_argument argument.now }
{
    match argument {
        Argument::Number(_) => true,
        Argument::Signed(Sign::Minus, magnitude) => is_signed(Sign::Minus, *magnitude),
        _ => false,
    }
}

fn is_offset(argument: &Argument) -> bool
    ensures { result ≡ is_offset_argument argument.now }
{
    match argument {
        Argument::Signed(sign, magnitude) => is_signed(*sign, *magnitude),
        _ => false,
    }
}

fn is_memory(argument: &Argument) -> bool
    ensures { result ≡ is_memory_argument argument.now }
{
    match argument {
        Argument::Memory { sign, offset, .. } => is_signed(*sign, *offset),
        _ => false,
    }
}

fn is_of(class: Class, argument: &Argument) -> bool
    ensures { result ≡ is_of_class class argument.now }
{
    match class {
        Class::Register => is_register(argument),
        Class::Source => is_register(argument) || is_number(argument),
        Class::Number => is_number(argument),
        Class::Unsigned => is_unsigned(argument),
        Class::Offset => is_offset(argument),
        Class::Memory => is_memory(argument),
    }
}

fn form_of(mnemonic: &Mnemonic) -> Form
    ensures { result ≡ form_of_mnemonic mnemonic.now }
{
    match mnemonic {
        Mnemonic::Alu(_, _) => Form::Two(Class::Register, Class::Source),
        Mnemonic::MoveSigned(_) => Form::Three(Class::Register, Class::Register, Class::Unsigned),
        Mnemonic::Negate(_) | Mnemonic::ByteSwap(_, _) => Form::One(Class::Register),
        Mnemonic::LoadNumber => Form::Two(Class::Register, Class::Unsigned),
        Mnemonic::LoadMap => Form::Two(Class::Register, Class::Number),
        Mnemonic::Jump | Mnemonic::JumpLong => Form::One(Class::Offset),
        Mnemonic::JumpIf(_, _) => Form::Three(Class::Register, Class::Source, Class::Offset),
        Mnemonic::Call(_) => Form::One(Class::Number),
        Mnemonic::Exit => Form::Zero,
        Mnemonic::Load(_) | Mnemonic::LoadSigned(_) => Form::Two(Class::Register, Class::Memory),
        Mnemonic::Store(_) => Form::Two(Class::Memory, Class::Number),
        Mnemonic::StoreRegister(_) => Form::Two(Class::Memory, Class::Register),
    }
}

fn takes(form: &Form, arguments: &Arguments) -> bool
    ensures { result ≡ takes_arguments form.now arguments.now }
{
    match (form, arguments) {
        (Form::Zero, Arguments::Zero) => true,
        (Form::One(p), Arguments::One(a)) => is_of(*p, a),
        (Form::Two(p, q), Arguments::Two(a, b)) => is_of(*p, a) && is_of(*q, b),
        (Form::Three(p, q, r), Arguments::Three(a, b, c)) => {
            is_of(*p, a) && is_of(*q, b) && is_of(*r, c)
        }
        _ => false,
    }
}

/// Whether the arguments are of the classes that the mnemonic takes.
pub fn is_formed(statement: &Statement) -> bool
    ensures { result ≡ is_formed_statement statement.now }
{
    takes(&form_of(&statement.mnemonic), &statement.arguments)
}
