// What can be typed. The script `malquindo` writes these lines, too, in the order of this file, so that help needs no proved program.
use std::io::Stdout;

// How the program is started.
const USAGE: [&str; 2] = [
    "./malquindo [IMAGE]           answers the lines of standard input on the card in the file IMAGE, or on a card to try\n",
    "./malquindo --help            writes this\n",
];

// The lines that are read, an example and a few words for each: a command, links of one, what opens a session, and others; then the words that `open`
// takes, and how the program ends.
const LINES: [&str; 28] = [
    "Each line is answered. Spaces may stand anywhere in a command and in the bytes of `open`; # starts a comment.\n",
    "  00 B2 01 0C 00 00 00        a command, in hexadecimal\n",
    "  10 E2 00 08 02 AA BB        a link: the first part of a command's data, or a further one. CLA 10 stands for 00, 90 for 80; no Le\n",
    "  00 E2 00 08 01 CC           the last link: the rest of the data, with the same INS, P1 and P2. This is one APPEND RECORD of AA BB CC\n",
    "                              (any status but 9000 drops the links so far, and so does opening a session)\n",
    "  open all                    opens a session with every right; `open none` with none\n",
    "  open travel=read,append visa=read biometrics5=write\n",
    "                              opens a session with what a certificate would grant\n",
    "  open FFFF ... FF            opens a session with three certificates, 60 bytes in hexadecimal\n",
    "  certificates RUN RUN RUN    opens a session with the rights in the extensions of three certificates, and says which these are\n",
    "                              (a run is hexadecimal without spaces, `-` for none; refused, the session has no rights)\n",
    "  rights                      says what the session may do\n",
    "  session                     says the session's application, file, record and chain\n",
    "  show                        lists what the card holds\n",
    "  certificate 07              shows the certificate that a stamp names by 07\n",
    "  certificate 07 other.card   looks for it on the card, and then in the card image of a file\n",
    "  stamp 07                    reads record 07, in hexadecimal, of EntryRecords as a stamp; `stamp 07 exit` of ExitRecords\n",
    "  cut 3 00 E2 00 08 01 55     leaves the card as a power cut after the command's first 3 single byte stores does\n",
    "  move new.card 0101 100 0102 50 011A 40\n",
    "                              writes the card with other rooms into a new file\n",
    "  help                        writes this\n",
    "What `open` grants, one word or more:\n",
    "  travel, visa, biometrics    to select the application; each word below does that, too\n",
    "  travel=, visa=              read, append, read-certificates, append-certificates, all\n",
    "  biometrics=                 read-certificates, append-certificates, all\n",
    "  biometrics1= to 64=         write (while Deactivated), read (while Activated), all\n",
    "The card's file holds each change before the answer is written. Messages that begin with ! go to standard error.\n",
    "Exit status: 0 every line was read and the card is kept; 1 a line could not be read or was refused; 2 no card.\n",
];

// Writes lines, each by one write: its end stands in its text.
fn tell(out: Stdout, texts: &[&str]) {
    for text in texts {
        program_console::word(out, text.as_bytes());
    }
}

// How the program is started, and then all of that.
pub(crate) fn usage(out: Stdout) {
    tell(out, &USAGE);
    all(out);
}

// What can be typed.
pub(crate) fn all(out: Stdout) {
    tell(out, &LINES);
}
