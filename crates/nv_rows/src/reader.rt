// Rows from entries.
use crate::content::content_of;
use crate::draft::{Draft, str_of, text_of};
use crate::entry::{Entry, Field};
use crate::fault::RowFault;
use crate::row::Row;
use crate::shape::check;
use crate::texts::Texts;
use nv_bytes::{is, trim};
use std::alloc::Global;

/// Reads entries in their order, since a row may include the texts before it, and no two rows have one name.
#[derive(Drop)]
pub struct Reader {
    texts: Texts,
    names: Vec<String>,
}

impl Reader {
    pub fn new(alloc: Global) -> Self {
        Reader {
            texts: Texts::new(alloc),
            names: Vec::new(alloc),
        }
    }

    // Takes the name of one more row.
    fn add_name(&mut self, name: &str) -> Result<(), RowFault> {
        if self.names.iter().any(|known| known.as_str() == name) {
            return Err(RowFault::Twice);
        }
        Ok(
            self.names
                .push(String::from_str(self.texts.alloc(), name)?)?,
        )
    }

    /// The rows of an entry: none where it is a text with a name, and one for each line of its table where it has one.
    pub fn rows(&mut self, entry: &Entry) -> Result<Vec<Row>, RowFault> {
        match entry.head.word {
            b"text" => self.name_text(&entry.head, &entry.fields),
            b"row" => self.read_row(entry),
            _ => Err(RowFault::Line),
        }
    }

    fn name_text(&mut self, head: &Field, fields: &[Field]) -> Result<Vec<Row>, RowFault> {
        if !fields.is_empty() {
            return Err(RowFault::Line);
        }
        let content = content_of(&self.texts, &head.content)?;
        self.texts.define(head.rest, content)?;
        Ok(Vec::new(self.texts.alloc()))
    }

    fn read_row(&mut self, entry: &Entry) -> Result<Vec<Row>, RowFault> {
        if !entry.head.content.is_empty() {
            return Err(RowFault::Line);
        }
        match entry.fields.as_slice() {
            [fields @ .., table] if is(table.word, "each") => self.read_table(entry, fields, table),
            fields => self.read_one(entry, fields),
        }
    }

    fn read_one(&mut self, entry: &Entry, fields: &[Field]) -> Result<Vec<Row>, RowFault> {
        let name = text_of(self.texts.alloc(), entry.head.rest)?;
        let row = self.row_of(name, fields)?;
        let mut rows = Vec::new(self.texts.alloc());
        rows.push(row)?;
        Ok(rows)
    }

    // A row for each line of the table, whose columns are texts with the names in its head.
    fn read_table(
        &mut self,
        entry: &Entry,
        fields: &[Field],
        table: &Field,
    ) -> Result<Vec<Row>, RowFault> {
        if table.content.is_empty() {
            return Err(RowFault::Empty);
        }
        let mut rows = Vec::new(self.texts.alloc());
        let known = self.texts.len();
        for line in &table.content {
            let row = self.read_line(entry.head.rest, fields, table.rest, line);
            self.texts.truncate(known);
            rows.push(row?)?;
        }
        Ok(rows)
    }

    // The row of a table's line.
    fn read_line(
        &mut self,
        name: &[u8],
        fields: &[Field],
        head: &[u8],
        line: &[u8],
    ) -> Result<Row, RowFault> {
        self.name_columns(head, line)?;
        let name = name_of(self.texts.alloc(), name, line)?;
        self.row_of(name, fields)
    }

    // Names the columns of a table's line.
    fn name_columns(&mut self, head: &[u8], line: &[u8]) -> Result<(), RowFault> {
        let [b'|', line @ ..] = line else {
            return Err(RowFault::Line);
        };
        let mut columns = line.split(|byte| *byte == b'|');
        for name in head.split(|byte| *byte == b'|') {
            self.name_column(trim(name), columns.next())?;
        }
        match columns.next() {
            Some(_) => Err(RowFault::Columns),
            None => Ok(()),
        }
    }

    fn name_column(&mut self, name: &[u8], column: Option<&[u8]>) -> Result<(), RowFault> {
        let column = column.ok_or(RowFault::Columns)?;
        let content = self.texts.expanded(trim(column))?;
        self.texts.define(name, content)
    }

    fn row_of(&mut self, name: String, fields: &[Field]) -> Result<Row, RowFault> {
        self.add_name(name.as_str())?;
        check(fields)?;
        let mut draft = Draft::new(self.texts.alloc(), name);
        for field in fields {
            draft.take(&self.texts, field)?;
        }
        draft.finish()
    }
}

// The name of the row of a table's line.
fn name_of(alloc: Global, name: &[u8], line: &[u8]) -> Result<String, RowFault> {
    let name = str_of(name)?;
    let line = str_of(line)?;
    Ok(format!(in alloc; "{name} {line}")?)
}
