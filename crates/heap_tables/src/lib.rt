// Tables on the heap, for programs: those that a map is lent, and those that an ordering is lent.

#![tactic(auto)]

mod map_tables;
mod work_tables;

pub use map_tables::MapTables;
pub use work_tables::WorkTables;

#[cfg(test)]
mod tests {
    use super::{MapTables, WorkTables};
    use keys::Junction;
    use std::test::Fail;

    #[test]
    fn tables_are_made(rt: HostRuntime) -> Result<(), Fail> {
        let mut map_tables: MapTables<Junction, u32> = MapTables::new(rt.alloc(), 3, 4)?;
        let places = map_tables.places();
        assert_eq!(rt; places.nodes.len(), 3);
        assert_eq!(rt; places.arcs.len(), 4);
        assert_eq!(rt; places.links.len(), 8);
        let mut work_tables = WorkTables::new(rt.alloc(), 3, 4)?;
        assert_eq!(rt; work_tables.ordering().touched(), 0);
        Ok(())
    }
}
