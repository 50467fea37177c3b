// The closed lists of words beyond the subset, in either case.

ghost use Rattle.std.specs.Prelude.{◌≡◌, map};
ghost use Rattle.std.specs.List.{list_any};
ghost use Rattle.std.specs.Str.{str_eq_ignore_ascii_case};
ghost use Rattle.mlk_dialect.specs.Tables.{is_one_of, is_variable, is_function, is_zdata, is_text_name};

const SESSION_VARIABLES: &[&[u8]] = &[
    b"EC",
    b"ECODE",
    b"ES",
    b"ESTACK",
    b"ST",
    b"STACK",
    b"TL",
    b"TLEVEL",
    b"TR",
    b"TRESTART",
    b"ZA",
    b"ZALLOCSTOR",
    b"ZB",
    b"ZCHSET",
    b"ZCLOSE",
    b"ZCMDLINE",
    b"ZDATEFORM",
    b"ZEOF",
];

const SYSTEM_VARIABLES: &[&[u8]] = &[
    b"ZH",
    b"ZHOROLOG",
    b"ZIO",
    b"ZJOB",
    b"ZKEY",
    b"ZL",
    b"ZLEVEL",
    b"ZMODE",
    b"ZPOSITION",
    b"ZPROMPT",
    b"ZREALSTOR",
    b"ZS",
    b"ZSO",
    b"ZSOURCE",
    b"ZSTATUS",
    b"ZUSEDSTOR",
    b"ZUT",
    b"ZV",
    b"ZVER",
    b"ZVERSION",
];

const TEXT_FUNCTIONS: &[&[u8]] = &[
    b"ZASCII",
    b"ZCH",
    b"ZCHAR",
    b"ZCONVERT",
    b"ZD",
    b"ZDATE",
    b"ZE",
    b"ZEXTRACT",
    b"ZFIND",
    b"ZJ",
    b"ZJUSTIFY",
    b"ZLENGTH",
    b"ZPI",
    b"ZPIECE",
    b"ZSUBSTR",
    b"ZTRANSLATE",
    b"ZWIDTH",
    b"ZWRITE",
];

const BIT_FUNCTIONS: &[&[u8]] = &[
    b"ZBITAND",
    b"ZBITCOUNT",
    b"ZBITFIND",
    b"ZBITGET",
    b"ZBITLEN",
    b"ZBITNOT",
    b"ZBITOR",
    b"ZBITSET",
    b"ZBITSTR",
    b"ZBITXOR",
];

const SYSTEM_FUNCTIONS: &[&[u8]] = &[
    b"ST",
    b"STACK",
    b"V",
    b"VIEW",
    b"ZJOBEXAM",
    b"ZM",
    b"ZMESSAGE",
    b"ZPARSE",
    b"ZPEEK",
    b"ZSEARCH",
    b"ZSYSLOG",
    b"ZTRNLNM",
];

fn has_word(names: &[&[u8]], word: &[u8]) -> bool
    ensures { result ≡ list_any (λ n. str_eq_ignore_ascii_case word.now n.now) names.now }
{
    names.iter().any(|name| word.eq_ignore_ascii_case(name))
}

fn is_one_of(names: &[&[u8]], word: &[u8]) -> bool
    ensures { result ≡ is_one_of (map (λ n. n.now) names.now) word.now }
{
    has_word(names, word)
}

/// Whether `word` is a special variable that only gives a value.
pub fn is_variable(word: &[u8]) -> bool
    ensures { result ≡ is_variable word.now }
{
    is_one_of(SESSION_VARIABLES, word) || is_one_of(SYSTEM_VARIABLES, word)
}

/// Whether `word` is a function that only gives a value.
pub fn is_function(word: &[u8]) -> bool
    ensures { result ≡ is_function word.now }
{
    is_one_of(TEXT_FUNCTIONS, word)
        || is_one_of(BIT_FUNCTIONS, word)
        || is_one_of(SYSTEM_FUNCTIONS, word)
}

/// Whether `word` is `ZDATA`.
pub fn is_zdata(word: &[u8]) -> bool
    ensures { result ≡ is_zdata word.now }
{
    word.eq_ignore_ascii_case(b"ZDATA")
}

/// Whether `word` is `T` or `TEXT`.
pub fn is_text_name(word: &[u8]) -> bool
    ensures { result ≡ is_text_name word.now }
{
    word.eq_ignore_ascii_case(b"T") || word.eq_ignore_ascii_case(b"TEXT")
}
