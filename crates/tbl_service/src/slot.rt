//! The two images of a table, and how commands and the table's owner change them (cFE user's guide, table services).

ghost use Rattle.std.specs.Prelude.{◌≡◌, ◌≤◌, length, Some, IsTrue, is_some, option_map, IfErr, IfOk, OnErr};
ghost use Rattle.lc_model.specs.Host.React.{max_file_size};
ghost use Rattle.lc_model.specs.Tables.Slot.{Activated, Asked, installed, judged, loaded, moved, no_images, taken, waiting_at};
ghost use Rattle.tbl_service.specs.declared.error.TableError.TheVariants.{Memory};
ghost use Rattle.tbl_service.specs.Error.{answered};
ghost use Rattle.tbl_service.specs.Images.{move_of, stage_of, waiting_seen};

use crate::buffer::Buffer;
use crate::error::TableError;
use std::alloc::Global;
use std::marker::Model;
use std::mem;

/// The stage of a waiting image.
#[derive(Clone, Copy, Debug, PartialEq, Eq)]
pub enum Stage {
    /// The image was loaded, or its owner found it invalid.
    Loaded,
    /// A command has asked the owner to validate the image.
    Asked,
    /// The owner found the image valid.
    Valid,
    /// A command has activated the image, and its owner may take it.
    Activated,
}

/// A command to the waiting image of a table.
#[derive(Clone, Copy)]
pub(crate) enum Move {
    Validate,
    Activate,
    Abort,
}

/// The active and the waiting image of a table, each in its own buffer.
#[derive(Debug, Drop)]
pub(crate) struct Images {
    active: Buffer,
    is_active: bool,
    waiting: Buffer,
    stage: Option<Stage>,
}

impl Model for Images {
    ghost use Rattle.std.specs.Prelude.{ℕ, List};
    ghost use Rattle.lc_model.specs.Tables.Slot.{Slot};
    ghost use Rattle.tbl_service.specs.Images.{slot_of};

    ghost Value = { Slot (List ℕ) };

    ghost view = { λ s. slot_of s.active s.is_active s.waiting s.stage };
}

impl Images {
    /// Creates the buffers without images. The only error is a lack of memory.
    pub(crate) fn new(alloc: Global) -> Result<Images, TableError>
        ensures empty { IfOk result (λ images. images ≡ no_images) }
        ensures memory { IfErr result (λ e. e ≡ Memory) }
    {
        Ok(Images {
            active: Buffer::new(alloc)?,
            is_active: false,
            waiting: Buffer::new(alloc)?,
            stage: None,
        })
    }

    /// How many bytes the buffer of the active image has room for.
    pub(crate) fn active_capacity(&self) -> usize
        ensures { result ≡ max_file_size }
    {
        self.active.capacity()
    }

    /// How many bytes the buffer of the waiting image has room for.
    pub(crate) fn waiting_capacity(&self) -> usize
        ensures { result ≡ max_file_size }
    {
        self.waiting.capacity()
    }

    /// Removes both images.
    pub(crate) fn clear(&mut self)
        ensures { self.new ≡ no_images }
    {
        self.is_active = false;
        self.stage = None;
    }

    /// Makes `image` the waiting image, in place of an earlier one. Error: `UpdatePending` if the earlier one is
    /// activated.
    pub(crate) fn load(&mut self, image: &[u8]) -> Result<(), TableError>
        requires { length image.now ≤ max_file_size }
        ensures answer { answered result self.new ≡ loaded image.now self.old }
        ensures refused { OnErr result (self.new ≡ self.old) }
    {
        if let Some(Stage::Activated) = self.stage {
            return Err(TableError::UpdatePending);
        }
        self.waiting.fill(image);
        self.stage = Some(Stage::Loaded);
        Ok(())
    }

    /// Applies a command to the waiting image. Errors: `NothingLoaded`, `UpdatePending`, `NotValidated`.
    pub(crate) fn change(&mut self, change: Move) -> Result<(), TableError>
        ensures answer { answered result self.new ≡ moved (move_of change) self.old }
        ensures refused { OnErr result (self.new ≡ self.old) }
    {
        let Some(stage) = self.stage else {
            return Err(TableError::NothingLoaded);
        };
        match (change, stage) {
            (Move::Abort, _any) => self.stage = None,
            (_other, Stage::Activated) => return Err(TableError::UpdatePending),
            (Move::Validate, _any) => self.stage = Some(Stage::Asked),
            (Move::Activate, Stage::Valid) => self.stage = Some(Stage::Activated),
            (Move::Activate, _any) => return Err(TableError::NotValidated),
        }
        Ok(())
    }

    /// Sets the owner's verdict on the image that it is asked about.
    pub(crate) fn judge(&mut self, valid: bool)
        requires { IsTrue (is_some (waiting_at Asked self.old)) }
        ensures { self.new ≡ judged valid self.old }
    {
        self.stage = Some(if valid { Stage::Valid } else { Stage::Loaded });
    }

    /// Makes the activated image the active one; no byte is copied.
    pub(crate) fn take(&mut self)
        requires { IsTrue (is_some (waiting_at Activated self.old)) }
        ensures { self.new ≡ taken self.old }
    {
        mem::swap(&mut self.active, &mut self.waiting);
        self.is_active = self.stage.take().is_some();
    }

    /// Makes `image` the active image; the waiting one stays.
    pub(crate) fn install(&mut self, image: &[u8])
        requires { length image.now ≤ max_file_size }
        ensures { self.new ≡ installed image.now self.old }
    {
        self.active.fill(image);
        self.is_active = true;
    }

    /// The active image, if there is one.
    pub(crate) fn active(&self) -> Option<&[u8]>
        ensures { option_map (λ image. image.now) result ≡ self.now.active }
    {
        if self.is_active {
            Some(self.active.bytes())
        } else {
            None
        }
    }

    /// The waiting image and its stage, if there is one.
    pub(crate) fn pending(&self) -> Option<(Stage, &[u8])>
        ensures { option_map (λ pending. waiting_seen pending.0 pending.1.now) result ≡
            self.now.waiting }
    {
        match self.stage {
            None => None,
            Some(stage) => Some((stage, self.waiting.bytes())),
        }
    }
}
