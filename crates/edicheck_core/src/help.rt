//! Texts for people.

/// What `--help` prints.
pub(crate) const HELP: &[u8] = b"edicheck checks UN/EDIFACT interchanges and directories.

edicheck check MANIFEST TEXT               print the errors of a text, and where its segments are
edicheck contrl MANIFEST TEXT STAMP REF    print its acknowledgement, a CONTRL message
edicheck match MANIFEST TEXT REPLY         print what a partner's reply to it, a CONTRL message, finds in it
edicheck guide MANIFEST GUIDE TEXT         print what check prints, by the directory that GUIDE makes stricter
edicheck edit MANIFEST TEXT < SCRIPT       answer a script of edits of a text and questions about it
edicheck session MANIFEST TEXT < SCRIPT    the same, with undo, redo, and batches of edits
edicheck segments < TEXT                   print the segments of a text
edicheck values < TEXT                     print its segments with their values
edicheck tables MANIFEST                   print the segment tables of a directory, and where they are ambiguous
edicheck compile MANIFEST                  print a directory as one file, a store, which MANIFEST may name
edicheck drill N K X                       make N messages from the number X, edit them K times, and count errors
edicheck --help                            print this help
edicheck --version                         print the version

MANIFEST, TEXT, REPLY and GUIDE are names of files in the folder that edicheck runs in. STAMP is the time
YYMMDD:HHMM, and REF a reference of 1 to 14 capital letters and digits. N is from 1 to 1000, K up to
1000, and X up to 999999999. Output ends with a line 'fault ..' where something is refused.

exit status: 0 done, 1 a text has errors or can't be acknowledged, or a reply doesn't fit it, 2 words of no
form, 3 bad directory or guide, 4 read fault, 5 write fault, 6 bad script, 7 too large, 8 out of memory,
9 no such file

example, in the folder examples/directory: edicheck check m order-with-errors.edi
";

/// What `--version` prints: the version of the crate `edicheck`, and the logic that it is proved in, which the toolchain
/// tells of itself. Toolchains of several names have the same logic.
pub(crate) const VERSION: &[u8] = b"edicheck 0.1.0
rattle logic dac8208d650f15bf
";
