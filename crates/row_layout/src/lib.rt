// row_layout.rs: where the parts of a row stand, the entries of its offset table, and the range of a Varchar.
#![tactic(auto)]

ghost use Rattle.std.specs.Prelude.{◌≡◌, ◌+◌, ◌*◌, ◌%◌, ◌^◌, ◌≤◌, ◌<◌, length};
ghost use Rattle.std.proofs.lemmas.List.Edits.{sets};
ghost use Rattle.row_format.specs.Places.{round_up, start_at, bitmap_start, table_start, fixed_start, offset_width, row_limit};
ghost use Rattle.row_format.specs.Row.{packed_marks, least_mark};
ghost use Rattle.row_format.specs.Header.{is_long, sort_in};
ghost use Rattle.row_format.specs.Table.{range_end};
ghost use Rattle.laws.specs.Bytes.{to_le, entry_at};
ghost use Rattle.row_layout.specs.Layout.{size_in};
ghost use Rattle.row_layout.specs.Range.{varlen_range};
ghost use Rattle.row_layout.specs.InnerLayout.{Bounded, Small, minimum_of, no_columns, of_sort, table_of, with_column};
ghost use Rattle.row_layout.specs.InnerRange.{Inside, HasEntry};

use row_format::Shape;

// at, rounded up to a multiple of a. For the alignments of types it goes by a mask: a walk over a schema rounds at each
// column, and then takes no jump by the alignment.
pub fn round_up(at: usize, a: usize) -> usize
    requires { (0 < a) × ((a ≤ 8) × (at ≤ 0x1_0000_0000)) }
    ensures { (result ≡ round_up a at) × (result ≤ at + 7) }
{
    let mask = match a {
        1 => 0,
        2 => 1,
        4 => 3,
        8 => 7,
        _ => return (at + (a - 1)) / a * a,
    };
    (at + mask) & !mask
}

// The geometry of the rows of a schema: how many columns, how many Varchars, how many bytes the fixed columns take,
// packed and padded, and the sort of the rows, which decides the width of an offset and the most bytes of a row.
#[derive(Clone, Copy)]
pub struct RowLayout {
    pub num_columns: usize,
    pub num_varlen_cols: usize,
    pub packed_size: usize,
    pub padded_size: usize,
    pub is_long: bool,
}

// The bytes of an offset.
pub fn offset_width(is_long: bool) -> usize
    ensures { (result ≡ offset_width is_long) × (result ≤ 4) }
{
    if is_long { 4 } else { 2 }
}

// The most bytes of a row, and of the text area beside a value list.
pub fn row_limit(is_long: bool) -> usize
    ensures { (result ≡ row_limit is_long) × (result ≤ 1048576) }
{
    if is_long { 1048576 } else { 65535 }
}

// The Varchars that the header's second word counts, its marks masked off.
pub fn varlen_count(field: u16, is_long: bool) -> usize
    ensures { result ≡ field % least_mark is_long }
{
    if is_long {
        (field % RowLayout::LONG_LAYOUT_FLAG) as usize
    } else {
        (field % RowLayout::PACKED_LAYOUT_FLAG) as usize
    }
}

// The marks of a packed row, which the header adds to that count.
pub fn packed_marks(is_long: bool) -> u16
    ensures { (result ≡ packed_marks is_long) × (result ≤ 0xC000) }
{
    if is_long { 0xC000 } else { 0x8000 }
}

// The sort that a row's own mark tells.
pub fn is_long(row: &[u8]) -> bool
    ensures { result ≡ is_long row.now }
{
    if row.len() < 4 {
        return false;
    }
    let field = endian::read_u16(row, 2);
    RowLayout::LONG_LAYOUT_FLAG <= field % RowLayout::PACKED_LAYOUT_FLAG
}

// The same of the row in the first n bytes of a buffer; one past its end counts as short.
pub fn sort_in(buf: &[u8], n: usize) -> bool
    ensures { result ≡ sort_in buf.now n }
{
    if buf.len() < n {
        return false;
    }
    is_long(&buf[..n])
}

impl RowLayout {
    // In the header's Varchar count of a packed row, and of a long one.
    pub const PACKED_LAYOUT_FLAG: u16 = 0x8000;

    pub const LONG_LAYOUT_FLAG: u16 = 0x4000;

    // The most columns of a schema.
    pub const COLUMN_LIMIT: usize = 256;

    pub fn bitmap_offset() -> usize
        ensures { result ≡ bitmap_start }
    {
        4
    }

    // The layout of no columns, which a walk over the columns starts with.
    pub fn new() -> Self
        ensures { result ≡ no_columns }
    {
        RowLayout {
            num_columns: 0,
            num_varlen_cols: 0,
            packed_size: 0,
            padded_size: 0,
            is_long: false,
        }
    }

    // The same geometry for the rows of a sort. A layout that is built anew at a call is stored by its fields; one that
    // is handed on as it came is stored with the bytes behind its last field, for which the called function waits.
    pub fn of_sort(self, is_long: bool) -> Self
        ensures { result ≡ of_sort is_long self }
    {
        RowLayout {
            num_columns: self.num_columns,
            num_varlen_cols: self.num_varlen_cols,
            packed_size: self.packed_size,
            padded_size: self.padded_size,
            is_long,
        }
    }

    // The layout with one column more.
    pub fn with_column(self, s: Shape) -> Self
        requires { (self.num_columns < 256) × (Bounded self × Small s) }
        ensures { (result ≡ with_column self s) × Bounded result }
    {
        match s {
            Shape::Varlen => RowLayout {
                num_columns: self.num_columns + 1,
                num_varlen_cols: self.num_varlen_cols + 1,
                packed_size: self.packed_size,
                padded_size: self.padded_size,
                is_long: self.is_long,
            },
            Shape::Fixed(size, a) => RowLayout {
                num_columns: self.num_columns + 1,
                num_varlen_cols: self.num_varlen_cols,
                packed_size: self.packed_size + size,
                padded_size: round_up(self.padded_size, a) + size,
                is_long: self.is_long,
            },
        }
    }

    // Where a fixed column of alignment a starts that comes after these, counted from the first fixed byte.
    pub fn slot_start(self, packed: bool, a: usize) -> usize
        requires { Bounded self × ((0 < a) × (a ≤ 8)) }
        ensures { result ≡ start_at packed a (size_in self packed) }
    {
        let end = self.fixed_size(packed);
        if packed { end } else { round_up(end, a) }
    }

    pub fn varlen_table_offset(self) -> usize
        requires { Bounded self }
        ensures { result ≡ table_start self.num_columns }
    {
        RowLayout::bitmap_offset() + (self.num_columns + 7) / 8
    }

    pub fn offset_table(self) -> OffsetTable
        requires { Bounded self }
        ensures { result ≡ table_of self }
    {
        OffsetTable {
            is_long: self.is_long,
            start: self.varlen_table_offset(),
            entries: self.num_varlen_cols,
        }
    }

    pub fn fixed_data_start(self) -> usize
        requires { Bounded self }
        ensures { (result
            ≡ fixed_start (offset_width self.is_long) self.num_columns self.num_varlen_cols)
            × (result ≤ 1060) }
    {
        self.varlen_table_offset() + self.num_varlen_cols * offset_width(self.is_long)
    }

    // The bytes of the fixed columns.
    pub fn fixed_size(self, packed: bool) -> usize
        ensures { result ≡ size_in self packed }
    {
        if packed {
            self.packed_size
        } else {
            self.padded_size
        }
    }

    // The bytes before the payloads.
    pub fn min_row_size(self, packed: bool) -> usize
        requires { Bounded self }
        ensures { result ≡ minimum_of self packed }
    {
        self.fixed_data_start() + self.fixed_size(packed)
    }
}

// An offset stored at `at`, where an entry of the table stands.
pub fn write_offset(row: &mut [u8], is_long: bool, at: usize, offset: usize)
    requires { (at + offset_width is_long ≤ length row.old) × (offset < 256 ^ offset_width is_long) }
    ensures { row.new ≡ sets row.old at (to_le (offset_width is_long) offset) }
{
    if is_long {
        endian::write_u32(row, at, offset as u32);
    } else {
        endian::write_u16(row, at, offset as u16);
    }
}

// The range of a Varchar: none for offset 0, and no part of the row for one that starts behind its end or ends behind
// the row's.
#[derive(Clone, Copy)]
pub enum VarlenRange {
    Null,
    Bytes(usize, usize),
    Outside,
}

// The offset table of a row: `entries` offsets of a sort's width, the first at byte `start`.
#[derive(Clone, Copy)]
pub struct OffsetTable {
    pub is_long: bool,
    pub start: usize,
    pub entries: usize,
}

impl OffsetTable {
    // The offset of a rank.
    pub fn offset_at(self, row: &[u8], rank: usize) -> usize
        requires { self.start + (rank + 1) * offset_width self.is_long ≤ length row.now }
        ensures { (result ≡ entry_at (offset_width self.is_long) self.start rank row.now)
            × (result < 256 ^ offset_width self.is_long) }
    {
        if self.is_long {
            endian::read_u32(row, self.start + rank * 4) as usize
        } else {
            endian::read_u16(row, self.start + rank * 2) as usize
        }
    }

    // The offset of a rank stored.
    pub fn put_offset(self, row: &mut [u8], rank: usize, offset: usize)
        requires { (self.start + (rank + 1) * offset_width self.is_long ≤ length row.old)
            × (offset < 256 ^ offset_width self.is_long) }
        ensures { row.new ≡ sets row.old (self.start + rank * offset_width self.is_long)
            (to_le (offset_width self.is_long) offset) }
    {
        if self.is_long {
            write_offset(row, true, self.start + rank * 4, offset);
        } else {
            write_offset(row, false, self.start + rank * 2, offset);
        }
    }

    // Where the range of a rank ends: at the first offset of a higher rank that is not 0, else at the row's end.
    pub fn range_end(self, row: &[u8], rank: usize) -> usize
        requires { HasEntry self rank row.now }
        ensures { result ≡ range_end (offset_width self.is_long) self.start self.entries rank row.now }
    {
        for k in rank + 1..self.entries {
            let o = self.offset_at(row, k);
            if o != 0 {
                return o;
            }
        }
        row.len()
    }

    pub fn varlen_range(self, row: &[u8], rank: usize) -> VarlenRange
        requires { HasEntry self rank row.now }
        ensures { (result ≡ varlen_range (offset_width self.is_long) self.start self.entries rank row.now)
            × Inside row.now result }
    {
        let start = self.offset_at(row, rank);
        if start == 0 {
            return VarlenRange::Null;
        }
        let end = self.range_end(row, rank);
        if end < start {
            return VarlenRange::Outside;
        }
        if row.len() < end {
            return VarlenRange::Outside;
        }
        VarlenRange::Bytes(start, end)
    }
}
