//! Queries over a view.

use crate::view::View;
use hp_query::Look;
use hp_store::CellValue;
use hp_value::{Cell, ClassNo, ClassPart, Key, KeyedRow, ObjectList, Row};
use std::alloc::{AllocError, Global};
use std::sync::Arc;

impl Look for View {
    ghost use Rattle.hp_view.specs.Seeing.{OnlyReads};
    ghost use Rattle.hp_view.specs.Looks.{Allows, only_reads_same, only_reads_then, reads_narrow};
    ghost use Rattle.hp_view.specs.Looks.{AsksOf, AsksRow, AsksPart, asks_same, asks_then, asks_row_same};
    ghost use Rattle.hp_view.specs.Asking.{AsksCount, AsksGreatest};

    // the objects of the cells where the view's reads hold, under the view's writes
    ghost allows = { Allows };

    ghost goes_on = { OnlyReads };

    // of the class or of its parts, and where the view's own writes cover an object, not of its cell
    ghost asks = { AsksOf };

    // of the object's cell, unless the view's own writes cover it
    ghost asks_row = { AsksRow };

    // of the part alone
    ghost asks_part = { AsksPart };

    // of the number, or where the view's own writes name an object that wasn't read, of the keys
    ghost asks_count = { AsksCount };

    // of the greatest key, or where the view's own writes delete that object, of the keys
    ghost asks_greatest = { AsksGreatest };

    ghost goes_on_same = { only_reads_same };

    ghost goes_on_then = { only_reads_then };

    ghost asks_same = { asks_same };

    ghost asks_then = { asks_then };

    ghost asks_row_same = { asks_row_same };

    ghost narrows = { reads_narrow };

    fn row(&mut self, alloc: Global, class: ClassNo, key: Key) -> Result<Option<Row>, AllocError> {
        match self.fetch(Cell::Object(class, key))? {
            Some(CellValue::Row(row)) => Ok(Some(row)),
            _ => Ok(None),
        }
    }

    fn keys(&mut self, alloc: Global, class: ClassNo) -> Result<Vec<Key>, AllocError> {
        let keys = View::keys(self, alloc, class)?;
        Ok(keys)
    }

    fn count(&mut self, alloc: Global, class: ClassNo) -> Result<usize, AllocError> {
        let count = View::count(self, alloc, class)?;
        Ok(count)
    }

    fn greatest_key(&mut self, alloc: Global, class: ClassNo) -> Result<Option<Key>, AllocError> {
        let greatest = View::greatest_key(self, alloc, class)?;
        Ok(greatest)
    }

    fn objects(
        &mut self,
        alloc: Global,
        class: ClassNo,
    ) -> Result<Option<Arc<ObjectList>>, AllocError> {
        let objects = self.all_objects(alloc, class)?;
        Ok(objects)
    }

    fn part(
        &mut self,
        alloc: Global,
        class: ClassNo,
        part: &ClassPart<'_>,
    ) -> Result<Option<Vec<KeyedRow>>, AllocError> {
        self.keep_index(alloc, class, part);
        let objects = View::part(self, alloc, class, part)?;
        Ok(objects)
    }

    fn likely_least(&self, class: ClassNo, low: Option<Key>) -> Option<Key> {
        View::likely_least(self, class, low)
    }

    fn likely_greatest(&self, class: ClassNo, high: Option<Key>) -> Option<Key> {
        View::likely_greatest(self, class, high)
    }
}
