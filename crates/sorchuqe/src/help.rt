//! What the program says of itself.

pub const PROGRAM: &str = "\
sorchuqe: what a company's event makes of stock futures and options

Usage:
  sorchuqe adjust FAMILY CODE SHARES [OPTION VALUE]...
  sorchuqe demo
  sorchuqe --help | --version
  sorchuqe COMMAND --help

Commands:
  adjust   what one contract becomes on the day of an event: its code, shares,
           cash, entry, claim and reference price, as the exchange's notice has them
  demo     one stock followed to the end in a book of options and one of futures:
           its lines and the accounts after each step

A refused event is told on standard error, with its number and reason, and the
exit status is then 1.
";

pub const ADJUST: &str = "\
sorchuqe adjust: what one contract becomes on the day of an event

Usage:
  sorchuqe adjust FAMILY CODE SHARES [OPTION VALUE]...

  FAMILY   futures or options
  CODE     the contract's code, as CSF, CS1, CNO or CNA
  SHARES   the shares of one lot, as 2000 or 2073.9967 (up to 4 decimals)

What the event does:
  --cash C       dollars paid for each share (up to 6 decimals)
  --ratio R      new shares for one old share (up to 9 decimals); 1 if not given
  --rate R       shares that may be subscribed for one share: 69.94366435 for a
                 thousand is 0.06994366435; decimals after the ninth are dropped
  --at P         the subscription price (2 decimals)
  --until DATE   the payment deadline, as 2022-08-03
  --into N       the number of the stock that takes the old one's place
  --prefix XX    the two letters of its codes

What is known of the contract:
  --lot-cash D   whole dollars already in the lot
  --claim K      open or fixed: the claim it already has on an earlier rights issue
  --stock N      the stock's number; 1 if not given
  --price P      a price before the event, to get its reference price (2 decimals)
  --day DATE     the day of the event; a deadline before it is refused

Examples:
  A dividend of 3 dollars:
    sorchuqe adjust futures CDF 2000 --price 78.00 --cash 3
  A rights issue with a dividend, at an assumed subscription price:
    sorchuqe adjust futures CSF 2000 --cash 1.6 --rate 0.06994366435 \\
      --at 30.00 --until 2022-08-03
  A share conversion, into 0.55 shares of another stock and 11.55 dollars:
    sorchuqe adjust futures DMF 2000 --price 19.80 --cash 11.55 --ratio 0.55 \\
      --into 2885 --prefix DO
";

pub const DEMO: &str = "\
sorchuqe demo: one stock followed to the end, told step by step

Usage:
  sorchuqe demo

Three brokers trade options and futures on stock 2891, in two books. A dividend
in July makes CNO into CNA with 2,000 dollars in the lot, and a new CNO is
listed. A stock dividend in October moves both generations one letter on, and
then come rights, with a claim in each lot. One month expires before the payment
deadline, at which the claims are fixed, and one after it.

Each step has the lines that it changes, with the worth of a lot before and after
a dividend, and the accounts: lots in each line, equities, and their sums, which
are zero.
";
