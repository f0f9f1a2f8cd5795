//! Texts that the command line shows.

/// The version that `--version` shows.
pub const VERSION: &str = "0.1.0";

/// What the program is, in a line.
pub const ABOUT: &str = "AWK over whole numbers, with a debugger that goes backward";

/// How the program is called.
pub const USAGE: &str = "rawk [OPTIONS] PROGRAM [FILE]\n       rawk [OPTIONS] -f PROGFILE [FILE]";

/// What `--help` says behind the options: numbers, files, the status, and the commands of a session, each with its short form.
pub const AFTER_HELP: &str = "\
Numbers are signed 64-bit whole numbers: a result that is not whole or does not
fit is a fault, and so is the number of a text such as 1.5 or 1e3.
There is one FILE. Of several: cat FILE.. | rawk PROGRAM
The status is 0, or that of `exit`; 2 after a fault or a refusal. A session's is
0 whatever its program does.

Commands of a session, one a line:
  step, s               go to the next point
  next, n               the same, past the points of functions that are called
  continue, c           go to the next stop, or to the ending
  finish                leave the function
  reverse-step, rs      go to the point before
  reverse-next, rn      the same, past the points of functions that were called
  reverse-continue, rc  go to the stop before, or to the oldest point kept
  reverse-finish        go back to where the function was called
  run, r                go to the oldest point kept, and then as continue
  break, b LINE|NAME    set a breakpoint at a line, or at a function
  delete, d N           remove the breakpoint N
  watch, w PLACE        stop where the value of PLACE changes
  unwatch N             remove the watchpoint N
  print, p PLACE        show the value of PLACE
  set PLACE=CONSTANT    assign at this point
  reverse-set           take back the last set at this point
  backtrace, bt         show the activations
  quit, q               end the session
PLACE is a variable, an element or a field, as NR, n[\"x\"] or $1; CONSTANT is a
number or a string. An array is shown whole by its name.";
