//! The text of a log file, written when it is first asked for.

ghost use Rattle.std.specs.Prelude.{◌≡◌, IfOk};
ghost use Rattle.cdni_log.specs.File.{file_text};

use cdni_base::Text;
use cdni_log::{FileHead, RowList, file_text};
use std::alloc::{AllocError, Global};
use std::marker::Model;

/// The text of a log file, seen as its bytes. They are written from the rows when they are first asked for, so that a file
/// that is dropped unread costs nothing but its rows.
#[derive(Drop)]
pub struct FileText {
    form: Form,
}

// what is kept of a file before it is asked for, and from then on
#[derive(Drop)]
enum Form {
    Rows { head: FileHead, rows: RowList },
    Text(Text),
}

impl Model for FileText {
    ghost use Rattle.std.specs.Prelude.{ℕ, List};
    ghost use Rattle.control_core.specs.File.{bytes_of};

    ghost Value = { List ℕ };

    ghost view = { λ t. bytes_of t.form };
}

impl FileText {
    /// The text of the file of this head and these rows. It takes no memory.
    pub fn of(head: FileHead, rows: RowList) -> FileText
        ensures { result ≡ file_text head rows.items }
    {
        FileText {
            form: Form::Rows { head, rows },
        }
    }

    /// The text, which is shared with what is kept. The first call writes it and lets go of the rows.
    ///
    /// # Errors
    /// Want of memory, in the first call alone.
    pub fn read(&mut self, alloc: Global) -> Result<Text, AllocError>
        ensures value { IfOk result (λ text. text ≡ self.old) }
        ensures same { self.new ≡ self.old }
    {
        let text = self.written(alloc)?;
        let copy = text.clone()?;
        self.form = Form::Text(text);
        Ok(copy)
    }

    // the text that is kept, or that the rows make
    fn written(&self, alloc: Global) -> Result<Text, AllocError>
        ensures { IfOk result (λ text. text ≡ self.now) }
    {
        match &self.form {
            Form::Rows { head, rows } => file_text(alloc, head, rows),
            Form::Text(text) => Ok(text.clone()?),
        }
    }
}
