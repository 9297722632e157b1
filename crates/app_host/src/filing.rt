//! Files that a record brings.

ghost use Rattle.std.specs.Prelude.{◌≡◌, ◌≤◌, length};
ghost use Rattle.lc_model.specs.Name.{name_size};
ghost use Rattle.lc_model.specs.Services.Tables.{file_put};
ghost use Rattle.app_host.specs.Hosted.{shown};
ghost use Rattle.app_host.specs.Whole.{IsWhole, IsQuiet};
ghost use Rattle.app_host.specs.Told.{Files};
ghost use Rattle.app_host.specs.Response.{filing, RespondsCounted};

use crate::app::App;
use crate::error::WriteFault;
use crate::host::Host;
use crate::numbers::of_tables;
use crate::texts;
use lc_model::{ByteSink, EventKind};

impl<B: App> Host<B> {
    /// Stores or refuses a file. Condition: a name of at most 40 bytes.
    #[inline(never)]
    pub(crate) fn store_file<W: ByteSink>(
        &mut self,
        name: &[u8],
        bytes: &[u8],
        out: &mut W,
    ) -> Result<u64, WriteFault>
        requires whole { IsWhole (shown B.meaning self.old) }
        requires quiet { IsQuiet (shown B.meaning self.old) }
        requires none_yet { self.old.calls ≡ 0 }
        requires short { length name.now ≤ name_size }
        ensures handled { Files name.now bytes.now
            (shown B.meaning self.old) (shown B.meaning self.new)
            (W.sink out.old) (W.sink out.new) result }
        ensures own { RespondsCounted self.old.services.moment
            (filing (shown B.meaning self.old)
            (file_put name.now bytes.now self.old.services.tables))
            (shown B.meaning self.old) (shown B.meaning self.new) (W.sink out.old).gained
            (W.sink out.new).gained result }
    {
        // For the proof: tables and files are within their bounds, and no name is used twice.
        self.services.tables.is_service();
        let stored = self.services.tables.put_file(name, bytes);
        // The same holds after the call.
        self.services.tables.is_service();
        match stored {
            Ok(()) => {
                let text = texts::file_stored();
                self.tell_alone(2, EventKind::Information, &text, out)
            }
            Err(error) => {
                let numbers = of_tables(error);
                let text = texts::file_refused(numbers.as_slice());
                self.tell_alone(3, EventKind::Error, &text, out)
            }
        }
    }
}
