// The operations: of fuel and limiter, of one memory, of one table, of two tables or a table and a segment, of segments, and the three creations.
#![tactic(auto, unfolding(crate::specs::Operation::fuel_well_formed, crate::specs::Operation::memory_well_formed, crate::specs::Operation::well_formed, crate::specs::stages::Rows::fuel_writes, crate::specs::stages::Rows::memory_writes, crate::specs::stages::Rows::table_writes, crate::specs::stages::Rows::writes_of))]

ghost use Rattle.std.specs.Prelude.{◌≡◌};
ghost use Rattle.machine.specs.Operation.{fuel_well_formed, memory_well_formed, well_formed};
ghost use Rattle.machine.specs.stages.Rows.{fuel_writes, memory_writes, table_writes, writes_of};

use super::fields;
use memory::access::{LoadKind, StoreKind};
use types::memory_ty::WantedMemory;
use types::raw::{RefType, TypedRawRef};
use types::span::CopySpan;
use types::table_ty::WantedTable;

// The limiter's answers: so many, as leading digits.
// Digits of one number, and no slice: the definition `script_of` and the C interface have them so.
#[derive(Clone, Copy)]
pub struct Script {
    pub count: u64,
    pub digits: u64,
}

// The items of a segment: so many of these four. Four fields, since the crates that read and write operations and `items_of` name each.
#[derive(Clone, Copy)]
pub struct Items {
    pub count: u64,
    pub first: u64,
    pub second: u64,
    pub third: u64,
    pub fourth: u64,
}

#[derive(Clone, Copy)]
pub enum FuelOp {
    // 01
    SetFuel { amount: u64 },
    // 02
    GetFuel,
    // 03
    Charge { units: u64 },
    // 04
    SetLimiter { script: Script },
}

#[derive(Clone, Copy)]
pub enum MemoryOp {
    // 11
    Grow {
        pages: u64,
    },
    // 12
    Size,
    // 13
    Load {
        kind: LoadKind,
        pointer: u64,
        offset: u64,
    },
    // 14
    Store {
        kind: StoreKind,
        pointer: u64,
        offset: u64,
        bits: u64,
    },
    // 30
    LinkCheck {
        wanted: WantedMemory,
    },
}

#[derive(Clone, Copy)]
pub enum TableOp {
    // 21
    Grow {
        cells: u64,
        value: TypedRawRef,
    },
    // 22
    Size,
    // 23
    Get {
        index: u64,
    },
    // 24
    Set {
        index: u64,
        value: TypedRawRef,
    },
    // 25
    Fill {
        start: u64,
        value: TypedRawRef,
        len: u64,
    },
}

#[derive(Clone, Copy)]
pub enum Operation {
    // 01 to 04
    Fuel {
        op: FuelOp,
    },
    // 10
    NewMemory {
        room: u64,
        wanted: WantedMemory,
    },
    // 11 to 14, 30
    Memory {
        number: u64,
        op: MemoryOp,
    },
    // 20
    NewTable {
        room: u64,
        wanted: WantedTable,
        initial: TypedRawRef,
    },
    // 21 to 25
    Table {
        number: u64,
        op: TableOp,
    },
    // 26
    TableCopy {
        into: u64,
        source: u64,
        span: CopySpan,
    },
    // 27
    TableInit {
        table: u64,
        segment: u64,
        span: CopySpan,
    },
    // 28
    DropSegment {
        segment: u64,
    },
    // 29
    NewSegment {
        element: RefType,
        items: Items,
    },
}

fn fuel_well_formed(op: FuelOp) -> bool
    ensures { result ≡ fuel_well_formed op }
{
    match op {
        FuelOp::SetFuel { .. } | FuelOp::GetFuel | FuelOp::Charge { .. } => true,
        FuelOp::SetLimiter { script } => fields::script_fields(script),
    }
}

fn memory_well_formed(op: MemoryOp) -> bool
    ensures { result ≡ memory_well_formed op }
{
    match op {
        MemoryOp::Store { kind, bits, .. } => fields::store_fields(kind, bits),
        MemoryOp::Grow { .. }
        | MemoryOp::Size
        | MemoryOp::Load { .. }
        | MemoryOp::LinkCheck { .. } => true,
    }
}

// A value and no closure, since `writes_of` promises it: what an operation may write to a row besides the numbers in use, fuel and the script's place.
#[derive(Clone, Copy)]
pub enum Writes {
    Nothing,
    Record,
    Script,
}

fn fuel_writes(op: FuelOp) -> Writes
    ensures { result ≡ fuel_writes op }
{
    match op {
        FuelOp::SetFuel { .. } | FuelOp::GetFuel | FuelOp::Charge { .. } => Writes::Nothing,
        FuelOp::SetLimiter { .. } => Writes::Script,
    }
}

fn memory_writes(op: MemoryOp) -> Writes
    ensures { result ≡ memory_writes op }
{
    match op {
        MemoryOp::Grow { .. } => Writes::Record,
        MemoryOp::Size
        | MemoryOp::Load { .. }
        | MemoryOp::Store { .. }
        | MemoryOp::LinkCheck { .. } => Writes::Nothing,
    }
}

fn table_writes(op: TableOp) -> Writes
    ensures { result ≡ table_writes op }
{
    match op {
        TableOp::Grow { .. } => Writes::Record,
        TableOp::Size | TableOp::Get { .. } | TableOp::Set { .. } | TableOp::Fill { .. } =>
            Writes::Nothing,
    }
}

impl Operation {
    // A record changes by a creation, a growth or a drop alone, the script's answers by handing a script over.
    pub(crate) fn writes(self) -> Writes
        ensures { result ≡ writes_of self }
    {
        match self {
            Operation::Fuel { op } => fuel_writes(op),
            Operation::Memory { number: _, op } => memory_writes(op),
            Operation::Table { number: _, op } => table_writes(op),
            Operation::TableCopy { .. } | Operation::TableInit { .. } => Writes::Nothing,
            Operation::NewMemory { .. }
            | Operation::NewTable { .. }
            | Operation::DropSegment { .. }
            | Operation::NewSegment { .. } => Writes::Record,
        }
    }

    // Whether the operation says nothing wrong that its types let it say.
    pub fn is_well_formed(self) -> bool
        ensures { result ≡ well_formed self }
    {
        match self {
            Operation::Fuel { op } => fuel_well_formed(op),
            Operation::Memory { number: _, op } => memory_well_formed(op),
            Operation::TableInit { span, .. } => fields::init_fields(span),
            Operation::NewSegment { element: _, items } => fields::item_fields(items),
            Operation::NewMemory { .. }
            | Operation::NewTable { .. }
            | Operation::Table { .. }
            | Operation::TableCopy { .. }
            | Operation::DropSegment { .. } => true,
        }
    }
}
