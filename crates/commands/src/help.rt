//! The texts of `--help` and `--version`.

/// The text that `--help` prints.
/// `--help` and `--version` exit with 0, as scripts expect. An unknown argument is a usage error.
pub const HELP: &[u8] =
    b"jobk: an exact reference model of processes, signals and job control in a Unix kernel

    jobk run WORLD EVENTS      print the trace of a world
    jobk audit TRACE           print ok, or the number of the first faulty line and its fault
    jobk explain TRACE         print a trace, with the meaning of its numbers after each line
    jobk explain TRACE WORLD EVENTS
                               check that TRACE is the trace of this world, and print what each line did
    jobk explain --audit TRACE
                               audit a trace, and print the line and the law that it breaks
    jobk lanes TRACE [--svg]   draw a trace, with a lane for each process
    jobk explore WORLD EVENTS  run every schedule: every way to insert ticks into EVENTS
        --ticks K              insert at most K ticks, 0 to 1000000 (default: 2)
        --upto N               insert only before the first N events (default: all)
        --states N             if schedules are merged, fail at more than N states before an event (default: 50000)
        --anywhere EVENT       also insert EVENT once, such as key 1 1A or hangup 1
        --find TEXT            count the schedules that have a line with these words, such as stop * SIGTSTP
        --must-halt            exit with 4 if a schedule does not halt
        --all                  run every schedule separately; otherwise, they are merged if there are more than 10000000
        --outcomes             print the list of outcomes, or exit with 2 if merging would leave no list
        --write WHICH          print only the events of one schedule: rest, going, find, or the number of an outcome
    jobk show WORLD EVENTS     print the state after the last event
        --at E                 print the state after event E
        --calls                print what each event did, up to that event
        --trace                print the trace up to that event, and what each line did
        --process P            print only process P
        --step                 step through the run, at a terminal
    jobk run --names FILES, jobk explore --names FILES .., jobk show --names FILES ..
                               accept names such as SIGTERM and ^C; FILES is WORLD EVENTS or FOLDER [EVENTS]
    jobk names TEXT            print a world or events with numbers in place of names
    jobk                       run a small built-in world

Exit status: 0 success, 1 rejected input or faulty trace, 2 usage error, 3 I/O error or out of memory,
4 explore found TEXT or, with --must-halt, a schedule that does not halt.
";

/// The line that `--version` prints.
pub const VERSION: &[u8] = b"jobk 1.0\n";
