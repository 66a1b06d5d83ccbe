//! A modem's listing of 27 units, each after the address of its centre, and what they say. The
//! octets were encoded by gammu 1.42.0.

/// A unit of the listing: whom it is from, its text as a line has it, and its date.
pub struct Listed {
    pub from: &'static str,
    pub text: &'static str,
    pub date: &'static str,
}

pub static LISTED: [Listed; 27] = [
    Listed {
        from: "+46705433012",
        text: "hello",
        date: "2024-01-01 00:00:00",
    },
    Listed {
        from: "+46702530829",
        text: "Meet at 10:30?",
        date: "2024-02-02 03:07:11",
    },
    Listed {
        from: "+46706624039",
        text: "ok",
        date: "2024-03-03 06:14:22",
    },
    Listed {
        from: "+46700810111",
        text: "a{b}[c]~|^\\\\",
        date: "2024-04-04 09:21:33",
    },
    Listed {
        from: "+46701215279",
        text: "The quick brown fox jumps over the lazy dog. 0123456789",
        date: "2024-05-05 12:28:44",
    },
    Listed {
        from: "+46708990608",
        text: "price 5€",
        date: "2024-06-06 15:35:55",
    },
    Listed {
        from: "+46701579240",
        text: "Äpfel und Öl",
        date: "2024-07-07 18:42:06",
    },
    Listed {
        from: "+46706135241",
        text: "¿Qué tal?",
        date: "2024-08-08 21:49:17",
    },
    Listed {
        from: "+46709777560",
        text: "line one\\nline two",
        date: "2024-09-09 00:56:28",
    },
    Listed {
        from: "+46700973060",
        text: "xxxxxxxxxxxxxxxxxxxxxxxxxxxxxxxxxxxxxxxxxxxxxxxxxxxxxxxxxxxxxxxxxxxxxxxxxxxxxxxxxxxxxxxxxxxxxxxxxxxxxxxxxxxxxxxxxxxxxxxxxxxxxxxxxxxxxxxxxxxxxxxxxxxxxxxxxxxxxxxx",
        date: "2024-10-10 03:03:39",
    },
    Listed {
        from: "+46708513358",
        text: "Привет, мир",
        date: "2024-11-11 06:10:50",
    },
    Listed {
        from: "+46703602037",
        text: "日本語のテキスト",
        date: "2024-12-12 09:17:01",
    },
    Listed {
        from: "+46700629072",
        text: "smile 😀",
        date: "2024-01-13 12:24:12",
    },
    Listed {
        from: "+46701441955",
        text: "é",
        date: "2024-02-14 15:31:23",
    },
    Listed {
        from: "+46707275367",
        text: "@",
        date: "2024-03-15 18:38:34",
    },
    Listed {
        from: "+46707015764",
        text: "see you tomorrow",
        date: "2024-04-16 21:45:45",
    },
    Listed {
        from: "+46701171979",
        text: "call me back",
        date: "2024-05-17 00:52:56",
    },
    Listed {
        from: "+46704037655",
        text: "Your code is 482913",
        date: "2024-06-18 03:59:07",
    },
    Listed {
        from: "+46701521911",
        text: "done",
        date: "2024-07-19 06:06:18",
    },
    Listed {
        from: "+46709245038",
        text: "50% off!",
        date: "2024-08-20 09:13:29",
    },
    Listed {
        from: "+46707122250",
        text: "(yes)",
        date: "2024-09-21 12:20:40",
    },
    Listed {
        from: "+46700991709",
        text: "&c.",
        date: "2024-10-22 15:27:51",
    },
    Listed {
        from: "+46709486738",
        text: "thanks",
        date: "2024-11-23 18:34:02",
    },
    Listed {
        from: "+46702077052",
        text: "on my way",
        date: "2024-12-24 21:41:13",
    },
    Listed {
        from: "+46703745328",
        text: "1",
        date: "2024-01-25 00:48:24",
    },
    Listed {
        from: "+46709781064",
        text: "à bientôt",
        date: "2024-02-26 03:55:35",
    },
    Listed {
        from: "+46701037872",
        text: "bye",
        date: "2024-03-27 06:02:46",
    },
];

pub const LISTING: &str = "\
AT+CMGL=4\r\n\
+CMGL: 1,1,,24\r\n\
07917283010010F5000B916407453310F200004210100000000005E8329BFD06\r\n\
+CMGL: 2,1,,32\r\n\
07917283010010F5000B916407520328F90000422020307011000ECD72990E0AD34131986E06FB01\r\n\
+CMGL: 3,1,,21\r\n\
07917283010010F5000B916407664230F900004230306041220002EF35\r\n\
+CMGL: 4,1,,36\r\n\
07917283010010F5000B916407800111F100004240409012330013E10D4ABC496D78E38D6FD3DB003794CD0B\r\n\
+CMGL: 5,1,,68\r\n\
07917283010010F5000B916407215172F90000425050218244003754741914AFA7C76B9058FEBEBB41E6371EA4\
AEB7E173D0DB5E9683E8E832881DD6E741E4F7D90582C564335ACD76C3E500\r\n\
+CMGL: 6,1,,27\r\n\
07917283010010F5000B916407980906F80000426060515355000970797A5C06D53665\r\n\
+CMGL: 7,1,,30\r\n\
07917283010010F5000B916407519742F00000427070812460000C5BB8B9CC06D5DD6410970D\r\n\
+CMGL: 8,1,,27\r\n\
07917283010010F5000B916407165342F100004280801294710009E068BD00A287D93F\r\n\
+CMGL: 9,1,,34\r\n\
07917283010010F5000B916407797765F000004290900065820011ECB4BB0C7ABBCB0A76DA5D06D1EF6F\r\n\
+CMGL: 10,1,,159\r\n\
07917283010010F5000B916407903760F0000042010130309300A0783C1E8FC7E3F1783C1E8FC7E3F1783C1E8F\
C7E3F1783C1E8FC7E3F1783C1E8FC7E3F1783C1E8FC7E3F1783C1E8FC7E3F1783C1E8FC7E3F1783C1E8FC7E3F1\
783C1E8FC7E3F1783C1E8FC7E3F1783C1E8FC7E3F1783C1E8FC7E3F1783C1E8FC7E3F1783C1E8FC7E3F1783C1E\
8FC7E3F1783C1E8FC7E3F1783C1E8FC7E3F1783C1E8FC7E3F1783C1E8FC7E3F1\r\n\
+CMGL: 11,1,,41\r\n\
07917283010010F5000B916407583153F800084211116001050016041F04400438043204350442002C0020043C\
04380440\r\n\
+CMGL: 12,1,,35\r\n\
07917283010010F5000B916407632030F70008422121907110001065E5672C8A9E306E30C630AD30B930C8\r\n\
+CMGL: 13,1,,35\r\n\
07917283010010F5000B916407609270F2000842103121422100100073006D0069006C00650020D83DDE00\r\n\
+CMGL: 14,1,,20\r\n\
07917283010010F5000B916407411459F50000422041511332000105\r\n\
+CMGL: 15,1,,20\r\n\
07917283010010F5000B916407275763F70000423051818343000100\r\n\
+CMGL: 16,1,,33\r\n\
07917283010010F5000B916407075167F400004240611254540010F37219947FD741F477FB2D97BFEF\r\n\
+CMGL: 17,1,,30\r\n\
07917283010010F5000B916407111779F90000425071002565000CE3309B0D6A9741E2F0780D\r\n\
+CMGL: 18,1,,36\r\n\
07917283010010F5000B916407047356F500004260813095700013D9775D0E1ABFC965507A0EA2E164B9D80C\r\n\
+CMGL: 19,1,,23\r\n\
07917283010010F5000B916407511219F100004270916060810004E4B7BB0C\r\n\
+CMGL: 20,1,,26\r\n\
07917283010010F5000B916407295430F800004280029031920008355809F4369B43\r\n\
+CMGL: 21,1,,24\r\n\
07917283010010F5000B916407172252F000004290122102040005A87C799E02\r\n\
+CMGL: 22,1,,22\r\n\
07917283010010F5000B916407901907F900004201225172150003A6B10B\r\n\
+CMGL: 23,1,,25\r\n\
07917283010010F5000B916407496837F8000042113281432000067474D8BD9E03\r\n\
+CMGL: 24,1,,27\r\n\
07917283010010F5000B916407027750F2000042214212143100096F37A89D07DDC379\r\n\
+CMGL: 25,1,,20\r\n\
07917283010010F5000B916407735423F80000421052008442000131\r\n\
+CMGL: 26,1,,37\r\n\
07917283010010F5000B916407791860F40008422062305553001200E00020006200690065006E007400F40074\r\n\
+CMGL: 27,1,,22\r\n\
07917283010010F5000B916407017378F200004230726020640003E27C19\r\n\
\r\n\
OK\r\n\
";
