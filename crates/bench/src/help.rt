// The text of `bench --help`.
pub(crate) const HELP: &str = "\
bench: look at HDLC frames by hand

usage:
  bench check HEX..     the check sequence (FCS) of bytes, and whether they match
  bench encode HEX..    the line bits of one frame, opening flag to closing flag
  bench read FILE       every stretch between two flags in a file of line bits
  bench read -          the same from standard input
  bench --help          this text; also -h, help, or no word at all

HEX    Bytes in words of hexadecimal digits, in either case: two digits a byte, one byte or more in
       a word, so that 03 3F and 033f are the same two bytes. No words are no bytes.
FILE   Line bits as text: each 0 or 1 is a bit, the first sent comes first. Spaces, tabs, line feeds
       and carriage returns are passed over; any other character is an error.

check prints the bytes, how many there are, their check sequence, the two bytes in which it is sent
(low byte first), and whether the bytes match. Bytes match if they end with the check sequence of
those before it: the check register, started at FFFF, then ends at F0B8.

encode prints the bytes, their check sequence, the number of line bits, and on the last line the bits:
a flag (01111110), the bytes and their check sequence, bit 0 of each first and with a 0 inserted after
every five 1s in a row, and a flag.

read prints a line for each stretch between two flags with no abort (seven 1s in a row) between them,
the oldest first: its verdict, how many bits it has after zero deletion, and its content, which is all
of these bits but the last 16, in bytes, bit 0 first, the last one filled up with 0. The verdict is
  ignored   fewer than 25 bits: too few to be a frame
  bad       25 to 31 bits, or more that do not match the check
  good      32 bits or more that match the check: a frame
Then come the numbers of line bits, stretches and good frames.

examples:
  bench check 03 3F
  bench encode 033F
  bench encode 03 3F | tail -n 1 | bench read -

exit status:
  0   done
  1   a mistake in what was typed or read, a file that cannot be read, or too little memory: one line
      on standard error says what is wrong and where
";
