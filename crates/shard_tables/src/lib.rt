//! A table's part behind one turn, or a whole table: maps and sets in vectors whose room is taken
//! when they are made. `Part` is a shard of either kind, `WholeTables` are tables each of which is
//! whole in one shard. `try_apply` is an error only if the operation may add a key and no capacity
//! is left. A shard that grows has the same entries in the same places. Its index has the factor of
//! the seed that it was made with (`with_seed`); which slots a search reads is in no clause. Whole
//! tables are filled from any `TellsOpening`, since scripts are defined above shards; a user has a
//! one-field type for it, since a crate can implement a trait only for a type or a trait of its
//! own.
//!
//! Where the elements of a list stand, found by their keys: a table of slots with open addressing
//! and linear probing, in which a deletion leaves no mark.
#![tactic(auto)]

mod index;
mod keyed;
mod laws;
mod map_shard;
mod part;
mod set_shard;
mod sharding;
mod slot_table;
mod start;
mod tells_opening;
mod whole_tables;

pub use index::PlaceIndex;
pub use keyed::Keyed;
pub use laws::{parting, parts_of_whole};
pub use map_shard::MapShard;
pub use part::Part;
pub use set_shard::SetShard;
pub use sharding::shard_of;
pub use start::{seed_factor, start_slot, start_slot_by};
pub use tells_opening::TellsOpening;
pub use whole_tables::WholeTables;
