ghost use Rattle.command_words.specs.Lines.{usage_line};
ghost use Rattle.std.specs.Prelude.{◌≡◌};

/// What is printed where the words are no command: one line, with its line feed.
pub fn usage_line() -> &'static [u8]
    ensures { result.now ≡ usage_line }
{
    b"usage: camkes compile ROOT BASE | check CDL POLICY CERT | list ROOT | explain ROOT FROM AUTHORITY TO | replay CDL POLICY STEPS | generate N | audit CDL POLICY | certify CDL POLICY | sections ELF | plan CDL UNTYPEDS\n"
}
