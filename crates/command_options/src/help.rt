//! The long help of the program, of its subcommands and of the option `--model`.

/// The description of the models in the long help.
pub(crate) const ABOUT_MODELS: &str = "\
Which faults, and which tests detect them:
stuck             a line is stuck at 0 or at 1; each test
                  detects by itself
transition        a line is slow to rise or slow to fall; each
                  test but the first is the capture test of
                  a pair with the test before it
transition-pairs  the same faults with a list of launch/capture
                  pairs: tests 0 and 1 are a pair, 2 and 3,
                  and so on, and only the capture test of a
                  pair detects
For a list of launch/capture pairs use transition-pairs: with
transition the coverage comes out too high, because tests 1 and
2 count as a pair, too.";

/// The note on files after the options.
pub(crate) const FILES: &str = "One FILE can be -, the standard input.";

/// The end of the long help of the program.
pub(crate) const ABOUT_TEXTS: &str = "\
Example, a circuit and tests for it, one a line:

    a.bench          a.tests
    INPUT(a)         00
    INPUT(b)         01
    OUTPUT(z)        10
    z = AND(a, b)    11

    faultsim run --bench a.bench --tests a.tests

prints that the tests detect all faults:

    6 of 6 (100.00%)

The exit status is 0 for success, 1 for an error in a file, 2 for an error in the
command line, 3 if a file, the output, memory or a thread fails, and 4 if the
coverage is below --fail-under.";

/// The end of the long help of `check`.
pub(crate) const ABOUT_CHECK: &str = "\
Example, a circuit with two errors:

    INPUT(a)
    OUTPUT(z)
    n1 = INV(a)
    z = NOT(n2)

    faultsim check --bench a.bench

reports the errors of the file on standard error, up to 20 of them, each with its
line, a mark and a suggestion, and then the error that run prints:

    a.bench:3: syntax
        n1 = INV(a)
             ^^^
        unknown gate INV; did you mean NOT?
    a.bench:4: name not defined
        z = NOT(n2)
                ^^
        n2 is not defined; is n1 meant?
    faultsim: bench line 3: syntax

If the files have no error, it prints their sizes, the most tests of one run, and
warnings.

--format json writes one JSON object on standard output, with errors or without:

    faultsim check --bench a.bench --format json | jq .errors

Each FILE is read whole. One FILE can be -, the standard input.";

/// The end of the long help of `run`.
pub(crate) const ABOUT_RUN: &str = "\
Example, a circuit and tests for it, one a line:

    a.bench          a.tests
    INPUT(a)         00
    INPUT(b)         01
    OUTPUT(z)        10
    z = AND(a, b)    11

    faultsim run --bench a.bench --tests a.tests --list

prints for each fault the first test that detects it, counted from 0, and then
the coverage:

    stem a sa0 3
    stem a sa1 1
    stem b sa0 3
    stem b sa1 2
    stem z sa0 3
    stem z sa1 0
    6 of 6 (100.00%)

An undetected fault has none instead of a number. The list is the uncollapsed
one, and the percentage is cut off after two decimals. --undetected prints only
the lines of the undetected faults. --classes prints after the coverage how many
of the fault classes are detected:
4 of 4 classes (100.00%).

--undetected --why prints the reason for each undetected fault, and last the
number of faults for each reason. Without test 11 these are:

    stem a sa0 none not observed
    stem b sa0 none not observed
    stem z sa0 none not activated
    3 of 6 (50.00%)
    0 no path, 1 not activated, 2 not observed

no path        no OUTPUT line and no flip-flop is reached from the line
not activated  no test sets the other bit, or no pair launches the transition
not observed   a test activates the fault, and none detects it

--format csv and json list all faults, or only the undetected ones. --why,
--detections N and --classes add columns. --why --detections 4 --classes
--format csv prints for the three tests:

    kind,name,pin,defect,first,net,reason,detections,class
    stem,a,,sa0,,a,not observed,0,2
    stem,a,,sa1,1,a,,1,0

and so on.

--blocks . prints after the coverage that of each block, the most undetected
first. Each . in a name ends a block: the faults at u.v.z are in u and in u.v. A
pin is in the block of its gate, a data pin in that of its flip-flop.

    block u 3 of 6 (50.00%)
    block u.v 1 of 2 (50.00%)

--blocking prints after the coverage the pins at which the effects of undetected
faults stop: the gate, the pin from 1, the signal that it reads, the controlling
value, how many undetected faults the pin blocks, and under how many tests it
blocks one. Without test 11 these are:

    pin z 1 a 0 1 1
    pin z 2 b 0 1 1

A test file of 4 MiB or more is read piece by piece, each other FILE whole. One
FILE can be -, the standard input.";

/// The end of the long help of `curve`.
pub(crate) const ABOUT_CURVE: &str = "\
Example, a circuit and tests for it, one a line:

    a.bench          a.tests
    INPUT(a)         00
    INPUT(b)         01
    OUTPUT(z)        01
    z = AND(a, b)    11

    faultsim curve --bench a.bench --tests a.tests

prints for each test that detects new faults, counted from 0, how many faults
this test and those before it detect, also in percent, and then the coverage.
Test 2 detects nothing new:

    0 1 16.66
    1 2 33.33
    3 5 83.33
    5 of 6 (83.33%)

With --format csv or json each row also has how many faults the test is the first
to detect.

A test file of 4 MiB or more is read piece by piece, each other FILE whole. One
FILE can be -, the standard input.";

/// The end of the long help of `compact`.
pub(crate) const ABOUT_COMPACT: &str = "\
Example, a circuit and tests for it, one a line:

    a.bench          a.tests
    INPUT(a)         00
    INPUT(b)         01
    OUTPUT(z)        10
    z = AND(a, b)    11

    faultsim compact --bench a.bench --tests a.tests > b.tests

writes some of the tests, in order, which detect the same faults as all. The file
begins with the line that names its columns. Test 00 detects only z stuck at 1,
which the next two detect, too:

    # columns: a b
    01
    10
    11

First it keeps the tests that are the first to detect some fault. Of these, from
the last to the first, it keeps each one that detects a fault which no later one
detects. Under transition faults each test that a step keeps also keeps the test
before it.

The number of kept tests goes to standard error:

    3 of 4 tests kept

With --numbers it writes the numbers of the kept tests, from 0, instead of the
tests:

    1
    2
    3

With --order steepest the kept tests have another order: first the one that
detects the most fault classes, then the one that detects the most of the other
classes, and so on, until no kept test detects a class anew. (A test that is not
kept may detect more than the first.) Under transition-pairs the pairs are in
this order; transition has only the order of the list.

A test file of 4 MiB or more is read piece by piece, each other FILE whole. One
FILE can be -, the standard input.";

/// The end of the long help of `responses`.
pub(crate) const ABOUT_RESPONSES: &str = "\
Example, a circuit with a flip-flop and tests for it, a bit for a and one for q:

    a.bench          a.tests
    INPUT(a)         01
    OUTPUT(z)        11
    q = DFF(d)
    d = XOR(a, q)
    z = NOT(q)

    faultsim responses --bench a.bench --tests a.tests

writes a row for each test: a bit for each OUTPUT line, and then the bit that
each flip-flop captures:

    01
    00

With --pairs it writes the launch-on-capture pairs of the tests: each test, and
then its capture test, in which the primary inputs are held and each flip-flop
has the captured bit.

    01
    01
    11
    10

They are a list of tests for run --model transition-pairs.

Each FILE is read whole. One FILE can be -, the standard input.";

/// The end of the long help of `schedule`.
pub(crate) const ABOUT_SCHEDULE: &str = "\
Example, a circuit, tests for it and an order of moves, one a line:

    a.bench          a.tests    a.order
    INPUT(a)         00         1
    INPUT(b)         01         0
    OUTPUT(z)        10         1
    z = AND(a, b)    11

    faultsim schedule -b a.bench -t a.tests --order a.order --workers 2

lets worker 1 move, then worker 0, then worker 1, and then all in turn:

    6 of 6 (100.00%)

Each FILE is read whole. One FILE can be -, the standard input.";

/// The end of the long help of `faults`.
pub(crate) const ABOUT_FAULTS: &str = "\
Example, a circuit:

    INPUT(a)
    OUTPUT(z)
    z = NOT(a)

    faultsim faults --bench a.bench

prints the class of each fault, counted from 0; the same tests detect all faults
of a class:

    stem a sa0 class 1
    stem a sa1 class 0
    stem z sa0 class 0
    stem z sa1 class 1
    4 faults in 2 classes

Each FILE is read whole. One FILE can be -, the standard input.";

/// The end of the long help of `merge`.
pub(crate) const ABOUT_MERGE: &str = "\
Example, a circuit and tests for it, one a line:

    a.bench          a.tests
    INPUT(a)         00
    INPUT(b)         01
    OUTPUT(z)        10
    z = AND(a, b)    11

    faultsim run --bench a.bench --tests a.tests --part 1/2 > part.1
    faultsim run --bench a.bench --tests a.tests --part 2/2 > part.2
    faultsim merge part.1 part.2

prints the same report as one run:

    6 of 6 (100.00%)

The order of the files doesn't matter. All parts of one run must be there, each
once.

Each FILE is read whole. One FILE can be -, the standard input.";
