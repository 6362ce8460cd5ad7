// Table types: validity, element kinds, subtyping, the dynamic type.
#![tactic(auto, using(crate::proofs::Picks::cases, crate::proofs::Halves::halved), unfolding(crate::specs::Wide::halves, crate::specs::TableType::table_bound, crate::specs::TableType::valid_table, crate::specs::TableType::validated, crate::specs::TableType::build_table, crate::specs::TableType::match_table, crate::specs::TableType::dynamic_table, crate::specs::TableType::element_matches))]

ghost use Rattle.std.specs.Prelude.{◌≡◌};
ghost use Rattle.types.specs.TableType.{table_bound, valid_table, validated, build_table, match_table, dynamic_table, element_matches};
ghost use Rattle.types.specs.Wide.{halves};

use super::answer::{Reason, Refusal};
use super::index_ty::IndexType;
use super::limits::Limits;
use super::raw::RefType;
use super::wide::Wide;

#[derive(Clone, Copy)]
pub struct TableType {
    pub element: RefType,
    pub index: IndexType,
    pub limits: Limits,
}

// A table type that is asked for, before it is built.
#[derive(Clone, Copy)]
pub struct WantedTable {
    pub element: RefType,
    // As `WantedMemory` has it.
    pub wide: bool,
    pub limits: Limits,
}

impl TableType {
    // The type of these fields, or refusal 1.
    pub fn build(element: RefType, is_64: bool, limits: Limits) -> Result<TableType, Refusal>
        ensures { result ≡ build_table element is_64 limits }
    {
        let ty = TableType {
            element,
            index: IndexType::of(is_64),
            limits,
        };
        ty.validated()
    }

    // This type where it is valid, or refusal 1; of its own, as `MemoryType::validated` says.
    pub fn validated(self) -> Result<TableType, Refusal>
        ensures { result ≡ validated self }
    {
        if !self.is_valid() {
            return Err(Refusal::from(Reason::TypeInvalid));
        }
        Ok(self)
    }

    pub fn is_valid(self) -> bool
        ensures { result ≡ valid_table self }
    {
        self.limits.valid_within(self.absolute_max())
    }

    // The most cells: one below the largest size.
    pub fn absolute_max(self) -> Wide
        ensures { result ≡ halves (table_bound self) }
    {
        match self.index {
            IndexType::I32 => Wide {
                high: 0,
                low: u32::MAX as u64,
            },
            IndexType::I64 => Wide {
                high: 0,
                low: u64::MAX,
            },
        }
    }

    // Whether a reference of this kind may stand in the table.
    pub fn element_matches(self, kind: RefType) -> bool
        ensures { result ≡ element_matches self kind }
    {
        self.element == kind
    }

    pub fn is_subtype_of(self, other: TableType) -> bool
        ensures { result ≡ match_table self other }
    {
        self.index == other.index
            && self.element == other.element
            && self.limits.matches(other.limits)
    }

    // The type of a table of this type that has `cells` cells now.
    pub fn dynamic_ty(self, cells: u64) -> TableType
        ensures { result ≡ dynamic_table self cells }
    {
        TableType {
            limits: self.limits.from(cells),
            ..self
        }
    }
}
