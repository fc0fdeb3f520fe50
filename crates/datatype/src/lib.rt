// datatype.rs: the column types, and the bytes of a schema.
#![tactic(auto)]

pub mod schema_kinds;

ghost use Rattle.std.specs.Prelude.{◌≡◌, false, ◌<◌, ◌≤◌, length};
ghost use Rattle.row_layout.specs.InnerLayout.{Bounded, Small};
ghost use Rattle.row_format.specs.Places.{offset_width, row_limit};
ghost use Rattle.datatype.specs.Types.{size_of, alignment_of, is_varlen, shape_of, precision_of, scale_of, length_of, counts_points};
ghost use Rattle.datatype.specs.Schema.{unknown, good_digits, column_kind, column_record_of, column_record_at, schema_of};
ghost use Rattle.datatype.specs.InnerSteps.{plain_size, is_varchar_kind, body_shape, Passable, passed};
ghost use Rattle.datatype.specs.InnerCheck.{BoundedIn, checked_schema, finished};

use error::Refusal;
use row_format::Shape;
use row_layout::RowLayout;

#[derive(Clone, Copy)]
pub enum DataType {
    SmallInt,
    Int,
    BigInt,
    Real,
    DoublePrecision,
    Numeric { precision: u8, scale: u8 },
    Decimal { precision: u8, scale: u8 },
    Bool,
    Char(u16),
    Character(u16),
    // Whether n counts code points, or else bytes. Stays a flag: definitions and theorems build `Varchar by_points n`.
    Varchar { by_points: bool, n: u16 },
    Date,
    Time,
    Bit(u16),
    Timestamp,
}

impl DataType {
    pub fn alignment(self) -> usize
        ensures { (result ≡ alignment_of self) × ((0 < result) × (result ≤ 8)) }
    {
        match self {
            DataType::SmallInt => 2,
            DataType::Int | DataType::Real | DataType::Date => 4,
            DataType::BigInt | DataType::DoublePrecision | DataType::Time | DataType::Timestamp =>
                8,
            _ => 1,
        }
    }

    // The bytes of a fixed column's slot; 0 for a Varchar, which has none. Stays 0, as `size_of` has it.
    pub fn fixed_size(self) -> usize
        ensures { (result ≡ size_of self) × (result ≤ 65535) }
    {
        match self {
            DataType::Numeric { precision, .. } | DataType::Decimal { precision, .. } =>
                (precision as usize + 2) / 2,
            DataType::Char(n) | DataType::Character(n) => n as usize,
            DataType::Varchar { .. } => 0,
            DataType::Bit(n) => (n as usize + 7) / 8,
            _ => self.alignment(),
        }
    }

    pub fn is_variable_length(self) -> bool
        ensures { result ≡ is_varlen self }
    {
        matches!(self, DataType::Varchar { .. })
    }

    // The digits of a Numeric or Decimal; 0 for other types. Stays 0, as `precision_of` has it.
    pub fn precision(self) -> u8
        ensures { result ≡ precision_of self }
    {
        match self {
            DataType::Numeric { precision, .. } | DataType::Decimal { precision, .. } => precision,
            _ => 0,
        }
    }

    // How many of the digits stand after the point; 0 for other types. Stays 0, as `scale_of` has it.
    pub fn scale(self) -> u8
        ensures { result ≡ scale_of self }
    {
        match self {
            DataType::Numeric { scale, .. } | DataType::Decimal { scale, .. } => scale,
            _ => 0,
        }
    }

    // The n of Char(n), Character(n), Varchar(n) and Bit(n); 0 for other types. Stays 0, as `length_of` has it.
    pub fn declared_length(self) -> u16
        ensures { result ≡ length_of self }
    {
        match self {
            DataType::Char(n)
            | DataType::Character(n)
            | DataType::Varchar { n, .. }
            | DataType::Bit(n) => n,
            _ => 0,
        }
    }

    // Whether that n counts code points; false for all types but such a Varchar.
    pub fn counts_points(self) -> bool
        ensures { result ≡ counts_points self }
    {
        matches!(
            self,
            DataType::Varchar {
                by_points: true,
                ..
            }
        )
    }

    // What the layout sees of the type.
    pub fn shape(self) -> Shape
        ensures { (result ≡ shape_of self) × Small result }
    {
        if self.is_variable_length() {
            Shape::Varlen
        } else {
            Shape::Fixed(self.fixed_size(), self.alignment())
        }
    }
}

// Whether NUMERIC(precision, scale) is a type.
fn good_digits(precision: u8, scale: u8) -> bool
    ensures { result ≡ good_digits precision scale }
{
    1 <= precision && precision <= 38 && scale <= precision
}

// A column's type, and the place after its record, of a kind that is followed by two bytes, or of no kind.
fn body_at(schema: &[u8], at: usize, kind: u8) -> error::Result<(DataType, usize)>
    requires { (at < length schema.now) × (plain_size (column_kind kind) ≡ 0) }
    ensures { result ≡ column_record_of (column_kind kind) schema.now at }
{
    if schema.len() - at < 3 {
        return Err(Refusal::BadRecord(at));
    }
    let precision = schema[at + 1];
    let scale = schema[at + 2];
    let n = endian::read_u16(schema, at + 1);
    let t = match kind {
        schema_kinds::NUMERIC | schema_kinds::DECIMAL if !good_digits(precision, scale) => {
            return Err(Refusal::BadSchema(at));
        }
        schema_kinds::NUMERIC => DataType::Numeric { precision, scale },
        schema_kinds::DECIMAL => DataType::Decimal { precision, scale },
        schema_kinds::CHAR => DataType::Char(n),
        schema_kinds::CHARACTER => DataType::Character(n),
        schema_kinds::VARCHAR => DataType::Varchar {
            by_points: false,
            n,
        },
        schema_kinds::BIT => DataType::Bit(n),
        schema_kinds::VARCHAR_CHARS => DataType::Varchar { by_points: true, n },
        _ => return Err(Refusal::BadRecord(at)),
    };
    Ok((t, at + 3))
}

// The bytes of a column whose kind is followed by no body, which are its alignment too; 0 for other kinds.
// Stays 0: `plain_size` of the clauses is 0 there.
pub fn plain_size(kind: u8) -> usize
    ensures { (result ≡ plain_size (column_kind kind)) × (result ≤ 8) }
{
    match kind {
        schema_kinds::BOOL => 1,
        schema_kinds::SMALL_INT => 2,
        schema_kinds::INT | schema_kinds::REAL | schema_kinds::DATE => 4,
        schema_kinds::BIG_INT
        | schema_kinds::DOUBLE_PRECISION
        | schema_kinds::TIME
        | schema_kinds::TIMESTAMP => 8,
        _ => 0,
    }
}

// The same of any kind.
pub fn record_at(schema: &[u8], at: usize) -> error::Result<(DataType, usize)>
    requires { at < length schema.now }
    ensures { result ≡ column_record_at schema.now at }
{
    let kind = schema[at];
    let t = match kind {
        schema_kinds::SMALL_INT => DataType::SmallInt,
        schema_kinds::INT => DataType::Int,
        schema_kinds::BIG_INT => DataType::BigInt,
        schema_kinds::REAL => DataType::Real,
        schema_kinds::DOUBLE_PRECISION => DataType::DoublePrecision,
        schema_kinds::BOOL => DataType::Bool,
        schema_kinds::DATE => DataType::Date,
        schema_kinds::TIME => DataType::Time,
        schema_kinds::TIMESTAMP => DataType::Timestamp,
        _ => return body_at(schema, at, kind),
    };
    Ok((t, at + 1))
}

// Whether a kind is a Varchar's, n in bytes or in code points.
pub fn is_varchar(kind: u8) -> bool
    ensures { result ≡ is_varchar_kind kind }
{
    matches!(kind, schema_kinds::VARCHAR | schema_kinds::VARCHAR_CHARS)
}

// A place of a schema, and the layout of the columns before it.
// Stays apart from the schema: the loops that walk hand the place and the layout on one by one.
#[derive(Clone, Copy)]
pub struct Step {
    pub at: usize,
    pub before: RowLayout,
}

// What the layout sees of a kind that is followed by a body: `first` is the body's first byte, n both. Of these kinds
// Numeric and Decimal come first.
fn body_shape(kind: u8, first: u8, n: u16) -> Shape
    requires { (plain_size (column_kind kind) ≡ 0) × (column_kind kind ≡ unknown → ⊥) }
    ensures { (result ≡ body_shape (column_kind kind) first n) × Small result }
{
    if is_varchar(kind) {
        Shape::Varlen
    } else if kind <= schema_kinds::DECIMAL {
        Shape::Fixed((first as usize + 2) / 2, 1)
    } else if kind == schema_kinds::BIT {
        Shape::Fixed((n as usize + 7) / 8, 1)
    } else {
        Shape::Fixed(n as usize, 1)
    }
}

// The walk from a column to the next, in a schema that was checked: what comes after the record at a place. It looks
// at no more of the type than the layout does, and is short, so that the compiler puts it into each loop that walks.
pub fn next_column(schema: &[u8], at: usize, before: RowLayout) -> Step
    requires { Passable schema.now at × ((before.num_columns < 256) × Bounded before) }
    ensures { (result ≡ passed at before (column_record_at schema.now at)) × Bounded result.before }
{
    let kind = schema[at];
    let size = plain_size(kind);
    if size != 0 {
        Step {
            at: at + 1,
            before: before.with_column(Shape::Fixed(size, size)),
        }
    } else {
        let first = schema[at + 1];
        let n = endian::read_u16(schema, at + 1);
        Step {
            at: at + 3,
            before: before.with_column(body_shape(kind, first, n)),
        }
    }
}

// The test that comes after the last record, for the rows of a sort.
pub fn finish(layout: RowLayout, at: usize) -> error::Result<RowLayout>
    requires { Bounded layout }
    ensures { (result ≡ finished at layout) × BoundedIn result }
{
    if row_layout::row_limit(layout.is_long) < layout.min_row_size(false) {
        Err(Refusal::BadSchema(at))
    } else {
        Ok(layout)
    }
}

// The layout of a schema's rows of a sort, or why its bytes are no schema.
pub fn check_schema(schema: &[u8], is_long: bool) -> error::Result<RowLayout>
    ensures { (result ≡ checked_schema is_long (schema_of is_long schema.now)) × BoundedIn result }
{
    let mut layout = RowLayout::new().of_sort(is_long);
    let mut at = 0;
    // Stays: no range has the places, since each record says where the next begins.
    while at < schema.len() {
        if layout.num_columns == RowLayout::COLUMN_LIMIT {
            return Err(Refusal::BadSchema(at));
        }
        let kind = schema[at];
        let size = plain_size(kind);
        if size != 0 {
            layout = layout.with_column(Shape::Fixed(size, size));
            at += 1;
        } else {
            let (t, next) = body_at(schema, at, kind)?;
            layout = layout.with_column(t.shape());
            at = next;
        }
    }
    finish(layout, schema.len())
}
