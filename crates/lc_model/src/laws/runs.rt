//! Laws of whole runs.

ghost use Rattle.std.specs.Prelude.{List};
ghost use Rattle.lc_model.specs.Tables.HalvesAndBytes.{as_bytes, as_halves};
ghost use Rattle.lc_model.specs.Tables.Image.{Layout};
ghost use Rattle.lc_model.specs.Laws.Reworded.{RewordedTextsRunAlike};
ghost use Rattle.lc_model.specs.Laws.Runs.{BytesRunAsFixedText, BytesRunAsTexts, CarriedByTheStream, CompiledFilesMeanAlike, RunsFollowTexts, RunsGoOn, RunsTellFailures, RunsWriteWhatBytesCallFor, RunsWriteWhatIsCalledFor, RunsWriteWithFixedTables};

/// The compiled file of a half has the same meaning by bytes and by texts.
pub fn compiled_files_mean_alike()
    ensures { CompiledFilesMeanAlike }
{}

/// For every stream, the output by bytes is what the rule texts in force call for, under the premises on hashes and raw files.
pub fn bytes_run_as_texts()
    ensures { BytesRunAsTexts }
{}

/// For one text and streams with fixed tables, the output by bytes is what the text calls for, without these premises.
pub fn bytes_run_as_fixed_text()
    ensures { BytesRunAsFixedText }
{}

/// A run of texts and one of the same texts, of which one is worded otherwise, have the same output for every stream.
pub fn reworded_texts_run_alike()
    ensures { RewordedTextsRunAlike }
{}

/// One more record only adds to the output.
pub fn runs_go_on()
    ensures halves { (layouts : List Layout) → RunsGoOn (as_halves layouts) }
    ensures bytes { (layouts : List Layout) → RunsGoOn (as_bytes layouts) }
{}

/// A run that `IsRun` describes writes what the rule texts call for.
pub fn runs_write_what_is_called_for()
    // 143 and 144 exactly if a read or a write failed.
    ensures failures { RunsTellFailures }

    // With devices that may fail: over the bytes that were read. If the stream is known, the premise on its raw files is enough.
    ensures follow { RunsFollowTexts }
    ensures carried { CarriedByTheStream }

    // If nothing fails: exactly the bytes that the rule texts in force call for.
    ensures texts { RunsWriteWhatIsCalledFor }

    // Without premises on hashes and raw files: by the bytes of files.
    ensures bytes { RunsWriteWhatBytesCallFor }

    // With one text and fixed tables.
    ensures fixed { RunsWriteWithFixedTables }
{}
