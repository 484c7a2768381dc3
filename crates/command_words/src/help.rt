//! What `--help` says of each argument of a command, and behind the arguments.

/// Behind the commands of `bpfrt --help`.
pub(crate) const HELP: &str = "\
A program file is raw bytes, or a text with a context, maps and slots (docs/PROGRAM_FILES.md). FILE is a path, or `-`
for standard input. `bpfrt COMMAND --help` says what a command reads, prints and answers. Help is written on standard
error.

Status: 0 fine, 1 refused or a wrong line, 2 usage, 3 memory, reading or writing";

const CHECK_HELP: &str = "\
Reads a program file: a text (`bpfrt 1`, `ctx N`, `map ..`, `code`, slots in hexadecimal digits),
whose maps and context the program is verified against, or raw bytes, with neither.

Prints `accepted I instructions S slots`. With --explain, a refusal is followed on standard error by its name
and meaning; where it is of an instruction, by that one's text, what is known of each register that it reads,
and how many locks are open; where it is of jumps or paths (20, 21, 22, 38), by the text and, of a jump, the cause.

With --asm, FILE is a text of instructions as `bpfrt asm --file` reads it. A refusal is followed by `line L: TEXT`,
the line in which the instruction stands; a text that is none is refused as `bpfrt asm` does.

With --log, standard error has before the verdict for each instruction, up to the one that is refused, its slot
and text, and what is known before it: r0 to r9, the frame (from r10 on) and open locks, as far as they may be read.

With --json, prints one object in place of the line: {\"accepted\":true,\"instructions\":I,\"slots\":S}, or of a refusal,
which stands on standard error too, {\"accepted\":false,\"code\":C,\"slot\":S,\"line\":L,\"name\":NAME,\"text\":MEANING}, with
null where there is no slot or line.

Status, and the line on standard error:
  0  accepted
  1  refused C, refused C at S   decoding or the verifier refuses, at slot S (docs/REFUSALS.md)
     fault 94 at L               line L of the file is wrong (docs/PROGRAM_FILES.md)
  2  usage
  3  fault 13, 96, 97            out of memory, or a text of more than 16 MiB; FILE or the output failed

Example:
  $ bpfrt check examples/c/counter.bpfrt
  accepted 33 instructions 35 slots";

const DISASM_HELP: &str = "\
Reads a program file as `bpfrt check` does, and verifies nothing.

Prints the text of the program, one instruction a line (docs/ASSEMBLY.md). The file's context and maps are no part
of it.

Status, and the line on standard error:
  0  written
  1  refused C, refused C at S   decoding refuses, at slot S (docs/REFUSALS.md)
     fault 94 at L               line L of the file is wrong (docs/PROGRAM_FILES.md)
  2  usage
  3  fault 13, 96, 97            out of memory, or a text of more than 16 MiB; FILE or the output failed

Example:
  $ bpfrt disasm examples/exit_one.bpf
  mov64 r0, 1
  exit";

const ASM_HELP: &str = "\
Reads a text of instructions, one a line, as `bpfrt disasm` writes it, or with labels, names, hexadecimal numbers
and comments (docs/ASSEMBLY.md). Above them may stand the lines of a program file, from `ctx N` to `code`, with
comments and empty lines. Lines may end by CR LF.

Prints the bytes of the program; with --file a program file of these lines and its slots; with --plain the
instructions without names. With --explain, a refusal is followed on standard error by its name and meaning, and by
what is wrong with the line.

Status, and the line on standard error:
  0  written (a line warns where the text has a context and maps, and bytes alone are printed)
  1  refused 14 at L, 15 at L    line L is no instruction, or has something out of its range
     refused 2, refused 3        there is no instruction, or there are too many
     fault 94 at L               line L is none that a program file has above its slots
  2  usage
  3  fault 13, 96, 97            out of memory, or a text of more than 16 MiB; FILE or the output failed

Example:
  $ bpfrt disasm examples/exit_one.bpf | bpfrt asm --file -
  bpfrt 1
  ctx 0
  code
  b700000001000000
  9500000000000000";

const SCRIPT_HELP: &str = "\
Reads a script from standard input to its end, one command a line (docs/SCRIPTS.md): maps and programs,
then what happens to them.

Prints the answer to each command, `refused C` among them. Each answer is out before the next line is
waited for. With --explain, standard error has each line that is refused or no command, and why it is.

Status, and the line on standard error:
  0  the input has ended; also where answers were refusals
  1  fault 95 at L               line L of the script is no command
  2  usage
  3  fault 13, 96, 97            out of memory; the input or the output failed

Example:
  $ printf 'map m 4 8 1 0 2\\nput m 00000000 0500000000000000 0\\nget m 00000000\\n' | bpfrt script
  map 0
  ret 0
  value 0500000000000000";

const POOL_HELP: &str = "\
Reads a program file as `bpfrt check` does, verifies it, and then runs it COUNT times by WORKERS threads that
share one world of the file's maps. Each job starts the program on its context, steps it to its exit, and drops
the run. The context is zeros; with --contexts or --packed the jobs take those of a file in turn, job 0 the first,
and begin again behind the last. Where no job changes a map, the maps are small and the jobs fit one journal, each
512 jobs have a world of their own, so that no worker waits for another.

Prints a line for each job in order, `job I exit V`, or `job I stopped C` where an event of the job was refused
or not applied, those of 16,384 jobs as soon as these are done; then `entries N`, how many events the journals have.
With --explain, a refusal is followed on standard error by what `bpfrt check` says, by what is wrong with the file of
contexts, or by the limits of pools.

Status, and the line on standard error:
  0  all jobs are done; also where jobs stopped
  1  what `bpfrt check` says of FILE; then
     refused 63, refused 63 at L the file has no context, or its line L is none, or its last one is cut
     refused 90                  WORKERS is not 1 to 8
     refused 91                  COUNT is above 65536
  2  usage; so a WORKERS or COUNT that is no number, before a file is read
  3  fault 13, 96, 97            out of memory, or a text of more than 16 MiB; a file or the output failed
                                 (the lines of some jobs may have been printed)

Example:
  $ bpfrt pool 4 examples/exit_one.bpf 2
  job 0 exit 1
  job 1 exit 1
  entries 8
  $ printf '2a\\n07\\n' | bpfrt pool 2 examples/first_byte.bpfrt 3 --contexts -
  job 0 exit 42
  job 1 exit 7
  job 2 exit 42
  entries 12";

const RUN_HELP: &str = "\
Reads a program file as `bpfrt check` does, verifies it, and then runs it once on the context CTX, to its exit,
in a world of its own with the file's maps. They are new, but for what --map puts in. Bytes are two hexadecimal
digits each. What follows --map NAME is taken for its elements, so it stands behind FILE and CTX, or FILE and CTX
behind `--`.

Prints `exit V steps N`: the exit value, and how many steps the run has made, the exit among them; with --dump
then for each map of the file `KEY VALUE` for each element, in the order of the keys' bytes, and `end`.
With --explain, a refusal is followed on standard error by what `bpfrt check` says, or by what was given and is due.

With --json, prints one object in their place: {\"accepted\":true,\"exit\":V,\"steps\":N,\"dump\":[LINE,..]}, where the
lines of --dump are strings; of a refusal what `bpfrt check --json` does. Where CTX or an element is wrong, \"text\" says
that the program is accepted.

Status, and the line on standard error:
  0  the run has exited
  1  what `bpfrt check` says of FILE; then the first of
     refused 63                  CTX has another length than the file's context
     refused 65, refused 66      NAME is no map of the file; KEY or VALUE has another length than its map's
     refused 98                  the map has no place for the element
  2  usage; so bytes that are none, before FILE is read
  3  fault 13, 96, 97            out of memory, or a text of more than 16 MiB; FILE or the output failed

Example:
  $ bpfrt run examples/lookup_and_load.bpfrt --map m 00000000=2a00000000000000 --dump
  exit 42 steps 12
  00000000 2a00000000000000
  end";

const TRACE_HELP: &str = "\
Runs a program as `bpfrt run` does, with the same words, and tells each of its steps above what that prints.

Prints of each step `SLOT: INSTRUCTION`, and below it, behind two spaces, what a store writes, what a call does (the
map, the key, the value, and what it gets), and the registers, the bytes of the frame and the number of open locks
that the step has changed. A number that would be an address has behind it what stands there: the context, the
frame (from r10 on), a map, or a map slot, where an element lies.
With --json, the object of `bpfrt run` has these lines as strings: {\"trace\":[LINE,..],\"accepted\":true,..}.

Status, and the line on standard error: those of `bpfrt run`.

Example:
  $ bpfrt trace examples/exit_one.bpf
  0: mov64 r0, 1
    r0 = 1
  1: exit
  exit 1 steps 2";

const FILTER_HELP: &str = "\
Reads a classic BPF program: a filter as `tcpdump -ddd` writes it, or a policy as libseccomp exports it (--seccomp).

Prints a program file, whose program exits with what the classic program returns. The context of a filter is how
many bytes were captured and how many the packet had on the wire, 4 bytes each with the lowest first, and 248 bytes
of packet, zeros behind what was captured; that of a policy is struct seccomp_data (examples/filters).
With --explain, a refusal is followed on standard error by its name and meaning, the line where it is, and what is
wrong.

Status, and the line on standard error:
  0  written
  1  refused 100 at 1, 101 at L  no such text, by its line
     refused 102                 no such array
     refused C, refused C at I   it is no program, or has no translation, by instruction I from 0: 103 to 114
                                 (docs/REFUSALS.md)
  2  usage
  3  fault 13, 96, 97            out of memory, or a text of more than 16 MiB; FILE or the output failed

Example:
  $ printf '1\\n6 0 0 262144\\n' | bpfrt filter - | bpfrt check -
  accepted 6 instructions 6 slots";

/// What stands behind the arguments in the help of the command of this name.
pub(crate) fn help_of(command: &str) -> &'static str {
    match command {
        "check" => CHECK_HELP,
        "disasm" => DISASM_HELP,
        "asm" => ASM_HELP,
        "script" => SCRIPT_HELP,
        "pool" => POOL_HELP,
        "run" => RUN_HELP,
        "trace" => TRACE_HELP,
        _ => FILTER_HELP,
    }
}

/// What is said of an argument of the command of this name.
pub(crate) fn argument_help(command: &str, name: &str) -> &'static str {
    match (name, command) {
        ("FILE", "asm") => "a text of instructions, one a line; `-` for standard input",
        ("FILE", "filter") => {
            "what `tcpdump -ddd` writes, or of a seccomp policy an array of struct sock_filter; `-` for standard input"
        }
        ("FILE", _) => {
            "a program file: text that begins with `bpfrt 1`, or the bytes of the program's slots; `-` for standard input"
        }
        ("explain", "script") => "say in words why a line is refused or no command",
        ("explain", _) => "say in words why a program is refused",
        ("asm", _) => "take FILE for a text of instructions, as `bpfrt asm` reads it",
        ("log", _) => "tell on standard error what is known before each instruction",
        ("json", _) => "print one JSON object, of a refusal too",
        ("file", _) => "write a program file, and not the program's bytes alone",
        ("plain", _) => "write the instructions without names, as `bpfrt disasm` does",
        ("WORKERS", _) => "how many workers, 1 to 8",
        ("COUNT", _) => "how many jobs, 0 to 65536",
        ("contexts", _) => {
            "take the jobs' contexts from this file, a line of hexadecimal digits each; `-` for standard input"
        }
        ("packed", _) => {
            "take them from this file of bytes, as many for each as the program's context has"
        }
        ("CTX", _) => "the bytes of the context; none where it is left out",
        ("map", _) => "put these elements into the file's map NAME before the run",
        ("dump", _) => "print the elements of the file's maps behind the exit",
        _ => "take a policy of system calls, as libseccomp exports it",
    }
}
