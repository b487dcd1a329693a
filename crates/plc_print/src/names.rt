// Names as tokens, where they stand: in the file, and among the locals of an operation.
ghost use Rattle.std.specs.Prelude.{◌≡◌};
ghost use Rattle.plc_lang.specs.Names.{data_name, field_name, pointer_name, variable_name};
ghost use Rattle.plc_lex.specs.declared.token.TokenKind.TheVariants.{Name as NameToken};
ghost use Rattle.plc_print.specs.Pieces.{kind_of};

use crate::tokens::Piece;
use plc_base::FieldId;
use plc_lang::{File, Local, Var, data_name, field_name, pointer_name, variable_name};

/// What is in reach of a primitive.
#[derive(Clone, Copy)]
pub struct Reach<'a> {
    pub file: &'a File,
    pub locals: &'a [Local],
}

impl<'a> Reach<'a> {
    /// The name of a pointer local.
    pub fn local(self, v: u16) -> Piece<'a>
        ensures { kind_of result ≡ NameToken (pointer_name self.entry.file.now self.entry.locals.now v) }
    {
        Piece::Name(pointer_name(self.file, self.locals, v))
    }

    /// The name of a data local.
    pub fn data(self, x: u16) -> Piece<'a>
        ensures { kind_of result ≡ NameToken (data_name self.entry.file.now self.entry.locals.now x) }
    {
        Piece::Name(data_name(self.file, self.locals, x))
    }

    /// The name of a pointer variable.
    pub fn name(self, var: Var) -> Piece<'a>
        ensures { kind_of result ≡ NameToken (variable_name self.entry.file.now self.entry.locals.now var) }
    {
        Piece::Name(variable_name(self.file, self.locals, var))
    }

    /// The name of a field.
    pub fn field(self, field: FieldId) -> Piece<'a>
        ensures { kind_of result ≡ NameToken (field_name self.entry.file.now field) }
    {
        Piece::Name(field_name(self.file, field))
    }
}
