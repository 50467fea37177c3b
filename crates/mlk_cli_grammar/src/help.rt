// What `--help` says.

pub(crate) const RULES_HELP: &str = "The rule file: which lock covers which global (TOML)";

pub(crate) const CERT_HELP: &str = "The certificate: for each line, the locks that are held there";

pub(crate) const ROUTINE_HELP: &str =
    "Files of routines, one routine each; a file's name up to its last dot is the routine's name. Of a folder, each `*.m` below it";

pub(crate) const FILES_HELP: &str =
    "A file that lists more routines, a path a line, read after the others; with it, ROUTINE may be left out";

pub(crate) const DIALECT_HELP: &str =
    "How much of M is read: standard, or extended, which reads words of vendors as any value too; a `yes` then says on how many of them it rests";

pub(crate) const WORKERS_HELP: &str = "How many workers walk entries side by side, 1 to 64";

pub(crate) const FORMAT_HELP: &str =
    "The format of the text: 1, which has the cases of each point in full, or 2, which has their numbers";

pub(crate) const OUTPUT_HELP: &str =
    "The form of the report: text, json, sarif, which build servers read, or lines, which is text with `FILE:LINE:COLUMN: ` before each fault";

pub(crate) const STRICT_HELP: &str =
    "Lists also the places where a real system may differ from the standard, and ends with status 1 if there are any";

pub(crate) const EXPLAIN_HELP: &str =
    "Shows below each fault its line, what is held there, the rules and what mends it, and below a refusal its line and what helps; only for text";

pub(crate) const QUIET_HELP: &str =
    "Prints only the answer, `yes`, `known N` or `no N`; only for text";

pub(crate) const EXIT_ZERO_HELP: &str =
    "Ends with status 0 also if the answer is no, or for a hazard: for a first trial in a build";

pub(crate) const BASELINE_HELP: &str =
    "A file that lists faults which are known: only others are reported, and `known N` is printed if there are none";

pub(crate) const WRITE_BASELINE_HELP: &str =
    "Writes the file for --baseline in which all faults of this report are known";

pub(crate) const SURVEY_OUTPUT_HELP: &str = "The form of the survey: text or json";

pub(crate) const CHECK_HELP: &str = "Checks routines against a rule file and a certificate";

pub(crate) const CHECK_MORE: &str = "Checks routines against a rule file and a certificate

Prints `yes` if every run of the declared entries, by any number of jobs, keeps the rules; otherwise a line for each
fault, as `LABEL^ROUTINE line:column CODE NAME`, and `no N`. With --explain each fault is explained below its line.

With --strict a line for each hazard follows, as `hazard ROUTINE line:column NAME`: a place where a real system may
differ from the standard.

With --baseline only faults are reported that its file doesn't list, and `known N` if there are none but those; each known
fault that is gone follows, as `gone N FAULT`.

Example: mlock check rules.toml bank.cert BANK.m

Status: 0 yes or known, 1 no, or a hazard with --strict, 2 refused input, 3 out of memory or a file that can't be read or
written.";

pub(crate) const MAKE_HELP: &str = "Makes a certificate of routines";

pub(crate) const MAKE_MORE: &str = "Makes a certificate of routines

Prints the certificate of the declared entries and of all that they call, by which `mlock check` finds as few faults as
the maker could reach. It is a text to read, to keep beside the routines, and to edit by hand. In format 2 the cases come
first, each once, and points have their numbers; `mlock convert` makes either format of the other.

Example: mlock make rules.toml BANK.m > bank.cert

Status: 0 made, 2 refused input or given up, 3 out of memory or a file that can't be read or written.";

pub(crate) const VERIFY_HELP: &str = "Makes a certificate of routines and checks them by it";

pub(crate) const VERIFY_MORE: &str = "Makes a certificate of routines and checks them by it

Prints what `mlock check` prints for the certificate that `mlock make` prints: `yes`, or a line for each fault and `no N`.
With --explain each fault is explained below its line.

With --strict a line for each hazard follows, as `hazard ROUTINE line:column NAME`: a place where a real system may
differ from the standard.

With --baseline only faults are reported that its file doesn't list, and `known N` if there are none but those; each known
fault that is gone follows, as `gone N FAULT`.

Example: mlock verify --explain rules.toml BANK.m

Status: 0 yes or known, 1 no, or a hazard with --strict, 2 refused input or given up, 3 out of memory or a file that can't
be read or written.";

pub(crate) const EVENTS_HELP: &str =
    "The events, a line each: which job begins, takes steps or is aborted; with --interactive, the file that is written";

pub(crate) const WHERE_HELP: &str =
    "Shows below each job the line where it is, and what is asked for its next step; and below a refusal its line and what helps";

pub(crate) const INTERACTIVE_HELP: &str =
    "Shows the jobs and asks for the next event, until the input ends or `end` is entered; then writes EVENTS";

pub(crate) const REPLAY_HELP: &str = "Replays events of jobs and shows where each job is";

pub(crate) const REPLAY_MORE: &str = "Replays events of jobs and shows where each job is

The jobs run the routines from the declared entries, by the events of the file in turn, such as `begin 1 DEP^BANK
0 \"A\" \"5\"`, `run 1`, `go 1` and `abort 1`. Prints a line for each job, with what it does next and what it holds, such as
`job 1 claims ^LOG holds ^ACCT(\"A\")*1`; a line for each two jobs that are about to touch one node that one of them writes,
and for each job that waits for another; and `ring yes` if jobs wait for each other in a ring, otherwise `ring no`.

With --explain the line of M where a job is follows the job's line, with what its next step asks for.

With --interactive the events are asked for one after another. The jobs are shown on the error stream before each, and an event
is offered where there is one. In the end the events are written to EVENTS, and the jobs are printed.

Example: mlock replay rules.toml incident.events BANK.m

Status: 0 replayed, 2 refused input or an event that can't happen, 3 out of memory or a file that can't be read or
written.";

pub(crate) const CONVERT_HELP: &str = "Writes a certificate in another format";

pub(crate) const CONVERT_MORE: &str = "Writes a certificate in another format

Prints the same certificate in the format that is asked for, whichever it has. In format 1 each point has its cases in
full; in format 2 they come first, each once, and points have their numbers. A certificate has one text in each format.

Example: mlock convert --format 2 bank.cert > bank.second

Status: 0 written, 2 refused input, 3 out of memory or a file that can't be read or written.";

pub(crate) const SURVEY_HELP: &str = "Lists what routines use, before there are rules";

pub(crate) const SURVEY_MORE: &str = "Lists what routines use, before there are rules

Reads each routine by itself, and continues behind a line that it can't read. Prints how many routines it read; which it
refused, at which lines and why; calls of what is not given, or that don't fit; entries; globals and how they are used;
locks, and which is claimed under which; and hazards, the places where a real system may differ from the standard. It
checks nothing, and needs no rules: begin with it.

Example: mlock survey routines/*.m

Status: 0 printed, 3 out of memory or a file that can't be read or written.";

pub(crate) const CODE_HELP: &str = "The number or the name of a code, such as 702 or Uncovered";

pub(crate) const PAGE_HELP: &str = "Explains a code of a report or of a refusal";

pub(crate) const PAGE_MORE: &str = "Explains a code of a report or of a refusal

Prints the page of the code: what it means, why it matters, what mends it, and an example. The code is given by its
number, from 101 to 903, or by its name, as in `mlock explain Uncovered`.

Example: mlock explain 702

Status: 0 printed, 2 no such code, 3 out of memory or standard output that can't be written.";

pub(crate) const BESIDE_HELP: &str =
    "A rule file (TOML): suggests only what it has no rule for, with ranks that fit between its own";

pub(crate) const SUGGEST_HELP: &str = "Suggests a rule file from what the routines do";

pub(crate) const SUGGEST_MORE: &str = "Suggests a rule file from what the routines do

Finds the lock that is held at most writes of each global, the order in which locks are claimed, and where jobs begin.
Prints a rule file with the evidence for each rule as a comment, and below the rules what is not decided and which places
don't keep to them: these are the first suspects. Lines are cut before what can't be read, and listed. Nothing proves that
the rules are what your team agreed on: read each line.

Example: mlock suggest routines/*.m > rules.toml

Status: 0 printed, 2 refused rules after --beside, 3 out of memory or a file that can't be read or written.";

pub(crate) const INSTEAD_HELP: &str =
    "Prints, in place of rules, the stubs that a check of the routines needs: of routines that are called and not given, and of those that can't be read";

pub(crate) const FOR_HELP: &str =
    "Prints only the stub of the routine of this name, which may be given, with all its labels; may be repeated";

pub(crate) const STUBS_HELP: &str = "Writes stubs for routines that are called and not given";

pub(crate) const STUBS_MORE: &str = "Writes stubs for routines that are called and not given

A call of a routine that is not given is refused (302), so a routine that can't be read can't just be left out. A stub takes
its place: a routine in M with the labels that are called. It touches no global and no lock, changes $TEST and what is
passed by reference to any value, and returns any value. That the real routine does no more is your word, on which a `yes`
then rests: read each stub, and add what the real routine does besides.

Prints a stub for each routine that is called and not given. With --for, prints the stub of a routine that is given and
can't be read, to be given in its place. Each begins with a line such as `DEV ; mlock stub`; keep it in a file of its own,
such as DEV.m.

Example: mlock stubs --for DEV routines/*.m > stubs/DEV.m

Status: 0 printed, 2 a name after --for that is no routine's, 3 out of memory or a file that can't be read or written.";

// The program's version, and the logic that it is proved in. Whether a build was proved is not for the program to say: the
// script that starts it knows.
pub(crate) const VERSION: &str = "0.1.0, for Rattle logic dac8208d650f15bf";

pub(crate) const ABOUT: &str = "Checks that M routines touch shared data only under their locks";
